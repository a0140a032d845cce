//! Texts that tests across crates share: the worked rows, the usage line, and the words of a command line.
#![tactic(auto)]

mod rows;
mod words;

pub use rows::{ROWS, Row};
pub use words::{USAGE, words_of};
