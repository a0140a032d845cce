//! A round of recovery: what clients have told, which stores are under way, and the servers' greatest version numbers.
#![tactic(auto)]

mod round;
mod telling;

pub use round::Round;

#[cfg(test)]
mod tests;
