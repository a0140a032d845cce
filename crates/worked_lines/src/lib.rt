//! Worked lines: random lists of packets pass the stages of a switch in workers as they pass it one after the other.
#![tactic(auto)]

#[cfg(test)]
mod lists;
