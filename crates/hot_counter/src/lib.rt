//! How often keys without an entry are met: the cells by which a key grows hot.
#![tactic(auto)]

mod cells;

pub use cells::{HOT_CELLS, HotCells};

#[cfg(test)]
mod tests;
