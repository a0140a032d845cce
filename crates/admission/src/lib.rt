//! The states of the slots as the controller knows them, the tags of admissions, and the choice of a victim.
#![tactic(auto)]

mod places;
mod slots;

pub use far_base::SlotState;
pub use slots::Admission;

#[cfg(test)]
mod tests;
