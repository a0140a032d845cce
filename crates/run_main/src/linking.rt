ghost use Rattle.std.specs.Prelude.{◌≡◌, IfOk, IfErr};
ghost use Rattle.retry_link.specs.Link.{AreLinkEvents};
ghost use Rattle.run_main.specs.Links.{IsTranscript};

use crate::status::Status;
use link_text::{Script, transcript};
use retry_link::links_deliver_once;
use std::alloc::Global;

/// The text of what the events of a link tell.
pub(crate) fn linked_text(alloc: Global, script: &Script) -> Result<Vec<u8>, Status>
    requires { AreLinkEvents script.now }
    ensures text { IfOk result (λ text. IsTranscript script.now text.items) }
    ensures memory { IfErr result (λ status. status ≡ Status.Memory) }
{
    links_deliver_once();
    match transcript(alloc, script) {
        Ok(text) => Ok(text),
        Err(_) => Err(Status::Memory),
    }
}
