//! A client: the operation that it waits for, and the records that it preserves until they are safe.
#![tactic(auto)]

mod client;
mod records;

pub use client::Client;

#[cfg(test)]
mod tests;
