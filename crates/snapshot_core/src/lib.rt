//! Snapshots: the parts of one that is gathered, and what a completed one holds.
#![tactic(auto)]

mod job;
mod parts;
mod snapshot;

pub use job::Job;
pub use snapshot::Snapshot;

#[cfg(test)]
mod tests;
