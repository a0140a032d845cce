//! The cache as definitions: what is logged, what a history is, and the whole machine. Nothing here runs.
#![tactic(auto)]
