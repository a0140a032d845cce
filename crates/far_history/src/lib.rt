//! The log of a run, its history, the map that its writes leave, the report and the summary.
#![tactic(auto)]

mod last_writes;
mod log;
mod marks;
mod newest;
mod places;
mod report;
mod stored;
mod summary;
mod told;

pub use far_base::{LogEntry, LogLine, Placed};
pub use last_writes::final_map;
pub use log::Log;
pub use newest::greatest;
pub use places::history;
pub use report::report_text;
pub use summary::summary_text;

#[cfg(test)]
mod newest_tests;
#[cfg(test)]
mod summary_tests;
#[cfg(test)]
mod tests;
