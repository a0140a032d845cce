//! What holds in every state of every run of the cache, as definitions, by subject, with what proofs remember of the
//! past of a run. Nothing here runs; the crates of laws prove these.
#![tactic(auto)]
