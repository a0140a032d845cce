//! Why a line of a workload was refused, in words that a person can act on. What is told is true of the text, and
//! something is told of each line that has none of the forms.
#![tactic(auto)]

mod ends;
mod finding;
mod heads;
mod orders;
mod reason;
mod shown;
mod spelled;

pub use finding::explain;
pub use orders::Verb;
pub use reason::{
    BodyFault, FormFault, HeadFault, HeadLine, KeyFault, LineReason, NumberFault, NumberName,
    WordFault,
};
pub use shown::Passed;

#[cfg(test)]
mod tests;
