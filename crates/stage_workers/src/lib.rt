//! The groups of a staged switch at work at once, each by a worker in a thread of its own.
#![tactic(auto)]

mod comparing;
mod done;
mod gate;
mod lists;
mod putting;
mod rings;
mod running;
mod workers;

pub use gate::{NoStageGate, StageGate};
pub use running::run_stages;
