//! A switch with a cache whose memory is in arrays of registers in 36 stages. The first has the epoch, the counter
//! and the snapshot, the next ones the table of keys, the heads of the slots, and what was taken beside the hot
//! cells; each of the other 32 has 8 bytes of each slot's body. A packet that passes them takes with it what the
//! stages decide.
#![tactic(auto)]

mod bodies;
mod cells;
mod emits;
mod flight;
mod gather;
mod groups;
mod leading;
mod parts;
mod pipeline;
mod rows;
mod same;
mod stages;
mod standing;
mod switch;
mod table;

pub use groups::{Flight, Groups, a_pass_counts_one, groups_make_a_line};
pub use leading::Head;
pub use parts::{BodyPart, PART_STAGES};
pub use pipeline::{Pipeline, STAGES, overlap_changes_nothing};
pub use same::same_packet;
pub use switch::StagedSwitch;

#[cfg(test)]
mod tests;
