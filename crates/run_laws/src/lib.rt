//! What holds in every state of every run of every valid plan, with all orders, evictions, snapshots, stops and
//! recoveries: functions with no code, whose contracts are the theorems of the cache. What holds whatever keepers
//! answer is in the laws of flights; a run is one of those by `flight_laws::runs_are_kept_runs`.
#![tactic(auto)]

mod evictions;
mod histories;
mod invariants;
mod records;
mod recoveries;
mod slots;
mod snapshots;

pub use evictions::evictions_are_safe;
pub use histories::{
    answers_are_current, finished_runs_are_linearizable, histories_are_told, runs_have_one_history,
};
pub use invariants::runs_hold;
pub use records::{kept_lists_are_written, records_are_written};
pub use recoveries::{
    absorbed_is_kept, absorbed_is_marked_near, first_restart_restores, releases_are_safe,
    restarts_are_told, restarts_restore, rounds_are_served,
};
pub use slots::{slots_are_owned, slots_stand_with_any_keeper};
pub use snapshots::{snapshots_are_cuts, snapshots_are_gathered, snapshots_are_served};
