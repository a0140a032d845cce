//! Whether a report of a run tells of one legal history: the lines of its history, read from the text, and judged by
//! what they say alone.
#![tactic(auto)]

mod fault;
mod judging;
mod laws;
mod line;
mod reader;
mod reason;
mod words;

pub use fault::AuditFault;
pub use judging::audit;
pub use laws::reports_are_good;
pub use line::HistLine;
pub use reader::read_report;
pub use reason::{HistFault, Reason, explain};

#[cfg(test)]
mod reason_tests;
#[cfg(test)]
mod tests;
