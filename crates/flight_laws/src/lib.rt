//! What is on its way in every state of every run of every plan, whatever the keepers answer in kind: functions with no
//! code, whose contracts are laws of the machine. Routes and operations; admissions, evictions, snapshots and rounds;
//! the work that is left, and when nothing can happen; the numbers that were drawn.
#![tactic(auto)]

mod flights;
mod pass_counts;
mod past;
mod runs;
mod snapshots;
mod stops;
mod work;

pub use flights::{one_flight, routes, steps_counted};
pub use pass_counts::{passes_are_counted, passes_fit};
pub use past::remembered_past;
pub use runs::{runs_are_kept_runs, runs_are_logged, runs_are_sound, runs_end, runs_have_room};
pub use snapshots::{
    completed_is_start, covers_stay, jobs_are_served, release_is_safe, snapshots_are_logged,
    snapshots_in_flight, snapshots_mean, snapshots_stand, written_records_agree,
};
pub use stops::recoveries_begin;
pub use work::{flights_kept, numbers_drawn, quiet_exactly_finished, room_needed, work_lowered};
