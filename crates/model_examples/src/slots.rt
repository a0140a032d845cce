//! Worked runs in which keys are admitted to slots.

ghost use Rattle.std.specs.Prelude.{◌≡◌};
ghost use Rattle.far_model.specs.History.{IsLegal};
ghost use Rattle.model_examples.specs.Example.{course_of, last_of, log_of, table_of, traffic_of};
ghost use Rattle.model_examples.specs.Slots;
ghost use Rattle.model_examples.specs.SlotsTraffic;
ghost use Rattle.model_laws.specs.Placing.{history_of};

/// A tagged read makes the slot latest with the old value, and the reply of the put raises it.
pub fn reply_raises_latest()
    ensures table { table_of Slots.reply_raises_latest ≡ Slots.reply_raises_latest.table }
    ensures course { course_of Slots.reply_raises_latest ≡ Slots.reply_raises_latest.course }
    ensures last { last_of Slots.reply_raises_latest ≡ Slots.reply_raises_latest.table.map }
    ensures legal { IsLegal (log_of Slots.reply_raises_latest) (history_of (log_of Slots.reply_raises_latest)) }
{}

/// The reply of the put passes an outdated slot, and the older tagged reply does not make it latest.
pub fn reply_raises_outdated()
    ensures table { table_of Slots.reply_raises_outdated ≡ Slots.reply_raises_outdated.table }
    ensures course { course_of Slots.reply_raises_outdated ≡ Slots.reply_raises_outdated.course }
    ensures last { last_of Slots.reply_raises_outdated ≡ Slots.reply_raises_outdated.table.map }
{}

/// A reply under the first tag comes back after eviction and a second admission.
pub fn old_tag_returns()
    ensures table { table_of Slots.old_tag_returns ≡ Slots.old_tag_returns.table }
    ensures course { course_of Slots.old_tag_returns ≡ Slots.old_tag_returns.course }
    ensures last { last_of Slots.old_tag_returns ≡ Slots.old_tag_returns.table.map }
{}

/// A key grows hot, and its absence is cached.
pub fn absence_is_cached()
    ensures table { table_of Slots.absence_is_cached ≡ Slots.absence_is_cached.table }
    ensures course { course_of Slots.absence_is_cached ≡ Slots.absence_is_cached.course }
    ensures last { last_of Slots.absence_is_cached ≡ Slots.absence_is_cached.table.map }
    ensures traffic { traffic_of Slots.absence_is_cached ≡ SlotsTraffic.absence_is_cached_traffic }
{}

/// Keys of the same and of different cells grow hot, and a snapshot begins the counts anew.
pub fn keys_grow_hot()
    ensures table { table_of Slots.keys_grow_hot ≡ Slots.keys_grow_hot.table }
    ensures course { course_of Slots.keys_grow_hot ≡ Slots.keys_grow_hot.course }
{}

/// Keys that were evicted come back to other slots, and outdated slots make room.
pub fn key_moves_to_another_slot()
    ensures table { table_of Slots.key_moves_to_another_slot ≡ Slots.key_moves_to_another_slot.table }
    ensures course { course_of Slots.key_moves_to_another_slot ≡ Slots.key_moves_to_another_slot.course }
    ensures last { last_of Slots.key_moves_to_another_slot ≡ Slots.key_moves_to_another_slot.table.map }
{}

/// Replies of reads and writes, late and early, come to latest and to outdated slots.
pub fn replies_meet_slots()
    ensures table { table_of Slots.replies_meet_slots ≡ Slots.replies_meet_slots.table }
    ensures course { course_of Slots.replies_meet_slots ≡ Slots.replies_meet_slots.course }
{}
