//! The events of a link as a text that is read, and what they tell as a text that is written.
#![tactic(auto)]

mod parser;
mod printer;
mod script;
mod words;

pub use parser::parse;
pub use printer::transcript;
pub use script::Script;

#[cfg(test)]
mod tests;
