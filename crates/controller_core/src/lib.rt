//! The controller: it admits keys to slots, evicts them safely, takes snapshots, and leads a recovery.
#![tactic(auto)]

mod admissions;
mod controller;
mod delivery;
mod evicting;
mod evictions;
mod note;
mod rounds;
mod sending;
mod snapshots;
mod wants;

pub use controller::Controller;
pub use note::Note;

#[cfg(test)]
mod tests;
