//! A plan divided among pipes by its keys, and a run in threads for each of them: every pipe has a world of its own
//! under a lock of its own, in which its clients, its servers, and its switch and controller take turns.
#![tactic(auto)]

mod gate;
mod laws;
mod parts;
mod pipe;
mod running;

pub use gate::{NoPipeGate, PipeGate};
pub use laws::plans_are_parted;
pub use parts::{PIPE_LIMIT, part};
pub use running::run_pipes;

#[cfg(test)]
mod tests;
