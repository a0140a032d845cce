//! What numbers, records and slots keep, event by event: lemmas for the laws above, which put them together.
#![tactic(auto)]
