//! The kept list of a world as a text, written and read, and the map that a recovery from it leaves.
#![tactic(auto)]

mod fault;
mod image;
mod printer;
mod reader;
mod recovery;
mod version;
mod words;

pub use fault::ImageFault;
pub use image::Image;
pub use printer::{map_text, write};
pub use reader::parse;
pub use recovery::recovered;
pub use version::FIRST_BODY_LIMIT;

#[cfg(test)]
mod tests;
