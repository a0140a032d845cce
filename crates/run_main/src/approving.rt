ghost use Rattle.std.specs.Prelude.{◌≡◌, IfOk, IfErr};
ghost use Rattle.run_main.specs.Lines.{yes_line};

use crate::status::Status;
use far_base::Memory;
use far_text::{Word, put_line};
use std::alloc::Global;

fn line_of_yes(alloc: Global) -> Result<Vec<u8>, Memory>
    ensures { IfOk result (λ text. text.items ≡ yes_line) }
{
    let mut text = Vec::new(alloc);
    put_line(&mut text, &[Word::Text(b"audit yes")])?;
    Ok(text)
}

/// The text of a report whose lines are good.
pub(crate) fn approval(alloc: Global) -> Result<Vec<u8>, Status>
    ensures text { IfOk result (λ text. text.items ≡ yes_line) }
    ensures memory { IfErr result (λ status. status ≡ Status.Memory) }
{
    match line_of_yes(alloc) {
        Ok(text) => Ok(text),
        Err(_) => Err(Status::Memory),
    }
}
