//! The text of a workload, read and printed, the picks that it gives, and generated workloads.
#![tactic(auto)]

mod fault;
mod generator;
mod laws;
mod lines;
mod load;
mod parser;
mod picker;
mod printer;
mod words;

pub use fault::{Limit, WorkFault};
pub use generator::generate;
pub use laws::printed_is_read;
pub use lines::{next_line, size};
pub use load::{PICK_LIMIT, Workload};
pub use parser::parse;
pub use picker::Picker;
pub use printer::{PICKS_PER_LINE, print};

#[cfg(test)]
mod tests;
