//! Small laws of the definitions: functions with no code, whose contracts say of one definition what a reader takes it
//! to mean.
#![tactic(auto)]

mod choices;
mod controller;
mod covers;
mod histories;
mod passes;
mod picks;
mod records;
mod ticks;
mod turns;

pub use choices::{choices_are_what_can_happen, picked_events_can_happen};
pub use controller::{latest_slots_are_stored_first, ready_is_all_answered};
pub use covers::covers_hold_below;
pub use histories::{every_log_has_one_history, exposed_is_the_least_bound};
pub use passes::{parts_leave_at_first_changes, passes_change_their_own};
pub use picks::picks_choose_one_run;
pub use records::newest_is_one;
pub use ticks::{
    ticks_are_absent, victims_make_room, wants_get_free_slots, wants_with_slots_are_dropped,
};
pub use turns::{
    client_turns, controller_turns, server_turns, slots_are_set_alone, stops_leave, switch_turns,
};
