//! A run in threads: clients, servers, the switch and the controller take turns under one lock, and a board shows how
//! far the run is.
#![tactic(auto)]

mod board;
mod running;
pub mod view;
mod watch;
mod workers;

pub use board::{Board, BoardPass};
pub use running::run_threads;
pub use view::Figures;

#[cfg(test)]
mod tests;
