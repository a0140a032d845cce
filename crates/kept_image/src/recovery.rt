ghost use Rattle.std.specs.Prelude.{◌≡◌, IfOk};
ghost use Rattle.far_model.specs.History.{IsNewestPerKey};
ghost use Rattle.far_model.specs.Kept.{records_in};

use crate::image::Image;
use far_base::{KeptItem, Memory, Record};
use far_history::greatest;
use std::alloc::Global;

/// The records of the items, in their order.
fn records_of(alloc: Global, items: &[KeptItem]) -> Result<Vec<Record>, Memory>
    ensures { IfOk result (λ records. records.items ≡ records_in items.now) }
{
    let mut records = Vec::new(alloc);
    for item in items {
        records.extend_from_slice(&[item.rec])?;
    }
    Ok(records)
}

/// The map that a recovery from the image leaves: the record of greatest number of each key that has a number above
/// 0, by key. In an image that was read, two records of one key and number are the same.
pub fn recovered(alloc: Global, image: &Image) -> Result<Vec<Record>, Memory>
    ensures { IfOk result (λ records. IsNewestPerKey (records_in image.now) records.items) }
{
    let records = records_of(alloc, &image.items)?;
    greatest(alloc, &records)
}
