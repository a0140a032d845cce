ghost use Rattle.std.specs.Prelude.{◌≡◌, ◌<◌, ◌≤◌, vec_len, vec_capacity};
ghost use Rattle.std.specs.List.{filter};
ghost use Rattle.far_model.specs.KeyedRecords.{put_record};
ghost use Rattle.client_records.specs.ClientView.{is_above, IsPlace};

use far_base::{Key, OpLine, Record};

/// The place of the record of the key, or the number of records where there is none.
fn place_of(records: &[Record], key: &Key) -> usize
    ensures { IsPlace key.now records.now result }
{
    for (i, kept) in records.iter().enumerate() {
        if kept.key == *key {
            return i;
        }
    }
    records.len()
}

/// The line's record under the number takes the place of that of its key, or goes last, for which there is room.
pub(crate) fn put(records: &mut Vec<Record>, line: &OpLine, num: u64)
    requires { vec_len records.old < vec_capacity records.old }
    ensures { records.new.items ≡ put_record (record { key = line.now.key; num = num; body = line.now.body })
        records.old.items }
{
    let place = place_of(records, &line.key);
    if place < records.len() {
        let kept = &mut records[place];
        kept.key = line.key;
        kept.num = num;
        kept.body = line.body;
    } else {
        records.push_reserved(Record {
            key: line.key,
            num,
            body: line.body,
        });
    }
}

/// Keeps the records above the version number, in their order.
pub(crate) fn drop_up_to(records: &mut Vec<Record>, point: u64)
    ensures items { records.new.items ≡ filter (is_above point) records.old.items }
    ensures fewer { vec_len records.new ≤ vec_len records.old }
    ensures room { vec_capacity records.new ≡ vec_capacity records.old }
{
    records.retain(|kept| point < kept.num);
}
