//! One eviction: which packet or which store comes next, so that a slot goes only once its server has its record.
#![tactic(auto)]

mod eviction;
mod next;

pub use eviction::Evict;
pub use far_base::Due;
pub use next::{Next, TRIES};

#[cfg(test)]
mod tests;
