//! The words of the text formats, read and written: numbers, keys, bodies, and the lines that they
//! stand in.
#![tactic(auto)]

mod hexadecimal;
mod lines;
mod words;
mod writer;

pub use hexadecimal::{hex_of, put_hex};
pub use lines::Lines;
pub use words::{NUMBER_DIGITS, NUMBER_LIMIT, body_bytes_of, body_of, cut, key_of, number_of};
pub use writer::{
    LINE_END, SPACE, Word, put_body, put_key, put_line, put_number, put_text, put_word,
};

#[cfg(test)]
mod tests;
