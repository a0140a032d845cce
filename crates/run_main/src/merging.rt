ghost use Rattle.std.specs.Prelude.{◌≡◌, IfOk, IfErr};
ghost use Rattle.run_main.specs.Images.{IsMapOf};

use crate::status::Status;
use far_base::Memory;
use kept_image::{Image, map_text, recovered};
use std::alloc::Global;

fn map_of(alloc: Global, image: &Image) -> Result<Vec<u8>, Memory>
    ensures { IfOk result (λ text. IsMapOf image.now text.items) }
{
    let newest = recovered(alloc, image)?;
    map_text(alloc, &newest)
}

/// The text of the map that a recovery makes of the kept list.
pub(crate) fn merged_text(alloc: Global, image: &Image) -> Result<Vec<u8>, Status>
    ensures text { IfOk result (λ text. IsMapOf image.now text.items) }
    ensures memory { IfErr result (λ status. status ≡ Status.Memory) }
{
    match map_of(alloc, image) {
        Ok(text) => Ok(text),
        Err(_) => Err(Status::Memory),
    }
}
