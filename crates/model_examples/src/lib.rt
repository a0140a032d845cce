//! Worked runs of the whole machine, computed from the definitions alone: each is the contract of a function that does
//! nothing. `table` is the steps, the history, the control entries and the final map; `course` is, in each state,
//! the work that is left and how many events can happen, where all is finished, and the servers' records at the end. Of
//! most runs `last` says that the final map has the last write of each key; of some `traffic` is each event, each
//! message that was taken, and the whole log.
#![tactic(auto)]

mod evictions;
mod named_stops;
mod plain;
mod slots;
mod snapshots;
mod stops;

pub use evictions::{
    delete_is_evicted, hand_goes_round, outdated_slot_is_evicted, three_writes_between,
    write_between,
};
pub use named_stops::{
    stop_after_restart, stop_at_control, stop_at_dropped, stop_at_no_peek, stop_at_requests,
    stop_at_second_start, stop_at_third_write, stop_at_write, stop_twice_at_write,
};
pub use plain::{never_written, nothing_to_do, put_and_get, writes_overtake};
pub use slots::{
    absence_is_cached, key_moves_to_another_slot, keys_grow_hot, old_tag_returns,
    replies_meet_slots, reply_raises_latest, reply_raises_outdated,
};
pub use snapshots::{
    absence_of_another_key, emptied_between_snapshots, empty_slot_again, four_snapshots,
    one_slot_changed, overwritten_before_read, slot_goes_on,
};
pub use stops::{
    late_removal_and_store, late_store_in_round, orders_before_their_time, records_told_in_parts,
    release_overtakes, stop_between_snapshots, stop_in_snapshot, stop_with_answer, two_stops,
};
