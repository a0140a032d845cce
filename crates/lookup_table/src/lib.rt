//! Which key is bound to which slot: a table of buckets of four cells, with an overflow list.
#![tactic(auto)]

mod cells;
mod lookup;
mod mark;
mod place;

pub use lookup::Lookup;
pub use place::{BUCKET_CELLS, Place};

#[cfg(test)]
mod tests;
