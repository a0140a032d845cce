//! The top calls of the cache: what its program does with its arguments, its input and its servers.
#![tactic(auto)]

mod approving;
mod command;
mod keeping;
mod laws;
mod line;
mod linking;
mod making;
mod merging;
mod pipes;
mod reading;
mod run;
mod running;
mod saying;
mod starting;
mod status;
mod task;
mod top;

pub use command::{Command, command_of};
pub use laws::{images_restore, replay_is_linearizable};
pub use line::top_line;
pub use pipes::{PipesEnded, top_pipes};
pub use run::{RunEnded, top_run};
pub use status::Status;
pub use top::{Ended, INPUT_LIMIT, top_calm, top_calm_in_memory};
pub use workload::Limit;

#[cfg(test)]
mod tests;
