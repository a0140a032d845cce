//! A slot of the cache: what it holds, and the rules by which it changes.
#![tactic(auto)]

mod mark;
mod slot;

pub use mark::Mark;
pub use slot::Slot;
