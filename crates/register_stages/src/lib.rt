//! Arrays of registers that a pass visits in rising order, each at most once.
#![tactic(auto)]

mod array;
mod token;

pub use array::RegArray;
pub use token::PassToken;

#[cfg(test)]
mod tests;
