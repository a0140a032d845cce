ghost use Rattle.std.specs.Prelude.{◌≡◌, ◌+◌, ◌<◌, ◌^◌, ◌++◌, ◌∷◌, Some, List, [], length, IfOk, OnOk};
ghost use Rattle.far_text.specs.Pieces.{pieces};
ghost use Rattle.far_model.specs.Members.{Each};
ghost use Rattle.workload.specs.Faults.{Blames, IsFoundAs};
ghost use Rattle.workload.specs.Outcome.{◌andthen◌, Gives};
ghost use Rattle.workload.specs.Reading.{next_line};
ghost use Rattle.workload.specs.declared.fault.WorkFault.{WorkFault as Fault};
ghost use Rattle.retry_link.specs.Link.{AreLinkEvents, OffersMessage};
ghost use Rattle.retry_link.specs.declared.link.LinkEvent.{LinkEvent as Event};
ghost use Rattle.link_text.specs.Faults.{HasScriptFault};
ghost use Rattle.link_text.specs.Reading.{line_step, one_more, reading, titled};
ghost use Rattle.link_text.specs.Script.{IsReadAs, IsScript};

use crate::script::Script;
use crate::words::{event_of, is_word};
use far_base::OP_LIMIT;
use far_text::Lines;
use retry_link::LinkEvent;
use std::alloc::Global;
use workload::{Limit, WorkFault};

/// The next whole line.
#[tactic(auto, using(workload::proofs::NextLine::line_next, workload::proofs::NextLine::line_missing))]
fn next_line<'a>(lines: &mut Lines<'a>) -> Result<&'a [u8], WorkFault>
    requires { lines.old.read + 1 < 2 ^ 32 }
    ensures line { Gives (λ line. (line.now, pieces 10 lines.new.rest.now)) result
        (next_line lines.old.read (pieces 10 lines.old.rest.now)) }
    ensures shorter { IfOk result (λ _. length lines.new.rest.now < length lines.old.rest.now) }
    ensures count { IfOk result (λ _. lines.new.read ≡ lines.old.read + 1) }
{
    match lines.next_line() {
        Some(line) => Ok(line),
        None => Err(WorkFault::BadLine(lines.read + 1)),
    }
}

fn title(lines: &mut Lines) -> Result<(), WorkFault>
    requires { lines.old.read ≡ 0 }
    ensures line { Gives (λ _. pieces 10 lines.new.rest.now) result
        (next_line 0 (pieces 10 lines.old.rest.now) andthen titled) }
    ensures shorter { IfOk result (λ _. length lines.new.rest.now < length lines.old.rest.now) }
    ensures count { IfOk result (λ _. lines.new.read ≡ 1) }
{
    let line = next_line(lines)?;
    if is_word(line, b"far 1 link") {
        Ok(())
    } else {
        Err(WorkFault::BadLine(1))
    }
}

/// Puts the event behind the others, where there is room.
fn push(events: &mut Vec<LinkEvent>, number: u32, event: &LinkEvent) -> Result<(), WorkFault>
    ensures { Gives (λ _. events.new.items) result (one_more number events.old.items (Some event.now)) }
{
    if events.len() >= OP_LIMIT as usize {
        return Err(WorkFault::TooLarge(Limit::Ops, number));
    }
    events
        .extend_from_slice(&[*event])
        .map_err(|_refused| WorkFault::Memory)
}

fn take_line(
    alloc: Global,
    events: &mut Vec<LinkEvent>,
    number: u32,
    line: &[u8],
) -> Result<(), WorkFault>
    ensures taken { Gives (λ _. events.new.items) result (line_step number events.old.items line.now) }
    ensures messages { OnOk result (Each OffersMessage events.old.items → Each OffersMessage events.new.items) }
{
    match event_of(alloc, line) {
        Ok(Some(event)) => push(events, number, &event),
        Ok(None) => Err(WorkFault::BadLine(number)),
        Err(_) => Err(WorkFault::Memory),
    }
}

#[tactic(auto, unfolding(crate::specs::Reading::reading), using(crate::proofs::ByLine::line_by_line))]
fn read_text(alloc: Global, text: &[u8]) -> Result<Script, WorkFault>
    requires { length text.now < 2 ^ 32 }
    ensures read { Gives (λ script. script) result (reading text.now) }
    ensures messages { IfOk result (Each OffersMessage) }
{
    let mut lines = Lines::new(text);
    title(&mut lines)?;
    let mut events = Vec::new(alloc);
    while !lines.rest.is_empty() {
        let line = next_line(&mut lines)?;
        take_line(alloc, &mut events, lines.read, line)?;
    }
    Ok(Script { events })
}

/// The events that the text tells, or the first line with a fault and its fault. `BadLine` names a line that has none
/// of the forms or no end, and a first line that is missing; `TooLarge` the first event beyond `OP_LIMIT`.
pub fn parse(alloc: Global, text: &[u8]) -> Result<Script, WorkFault>
    requires { length text.now < 2 ^ 32 }
    ensures found { IfOk result (λ events. IsScript text.now events) }
    // A text that tells events is read as them, unless memory is refused.
    ensures only { (events : List Event) → IsScript text.now events → IsReadAs result events }
    ensures events { IfOk result (λ events. AreLinkEvents events) }
    // A fault that is named is that of the first faulty line.
    ensures fault { Blames result (HasScriptFault text.now) }
    // The first faulty line is named with its fault, unless memory is refused.
    ensures first { (fault : Fault) → HasScriptFault text.now fault → IsFoundAs result fault }
{
    read_text(alloc, text)
}
