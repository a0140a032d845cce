use crate::status::Status;
use far_base::Memory;
use far_outside::{Sink, SinkFault};
use far_text::{Word, put_line};
use std::alloc::Global;
use workload::Limit;

const USAGE: &[u8] =
    b"usage: far replay, run, image, recover, line, pipes P, audit, link, or bulk START OPS\n";

ghost use Rattle.std.specs.Prelude.{◌≡◌, ◌≢◌, ◌⊎◌, ◌≤◌, [], IfOk, IfSome, None, Some};
ghost use Rattle.far_outside.specs.Faults.{Rose};
ghost use Rattle.run_main.specs.Lines as lines;
ghost use Rattle.run_main.specs.Saying.{IsAnswer, IsEarly, IsSaid, Says};

/// Writes the text, in one call, and answers the status that goes with it. Where this is answered the sink has counted no
/// fault.
pub(crate) fn say<D: Sink>(sink: &mut D, text: &[u8], status: Status) -> Status
    requires { IsSaid status }
    ensures said { Says (D.written sink.old) (D.written sink.new) text.now status result }
    ensures answer { IsAnswer status result }
    ensures unfailed { result ≢ Status.WriteFault → result ≢ Status.Memory → D.fault_count sink.new
        ≡ D.fault_count sink.old }
    ensures cause { result ≡ Status.WriteFault → Rose (D.fault_count sink.old) (D.fault_count sink.new) }
    ensures calm { ¬ Rose (D.fault_count sink.old) (D.fault_count sink.new) → (result ≡ status) ⊎ (result
        ≡ Status.Memory) }
{
    match sink.write(text) {
        Ok(()) => status,
        Err(SinkFault::Memory) => Status::Memory,
        Err(SinkFault::Failed) => Status::WriteFault,
    }
}

/// Writes the text of what was made, in one call. Where no memory was left for this, what was made is let go.
pub(crate) fn say_of<D: Sink, E: Drop>(
    alloc: Global,
    sink: &mut D,
    text: &[u8],
    made: Vec<E>,
) -> (Status, Vec<E>)
    ensures said { Says (D.written sink.old) (D.written sink.new) text.now Status.Done result.0 }
    ensures answer { IsAnswer Status.Done result.0 }
    ensures unfailed { result.0 ≢ Status.WriteFault → result.0 ≢ Status.Memory → D.fault_count sink.new
        ≡ D.fault_count sink.old }
    ensures cause { result.0 ≡ Status.WriteFault → Rose (D.fault_count sink.old) (D.fault_count sink.new) }
    ensures calm { ¬ Rose (D.fault_count sink.old) (D.fault_count sink.new) → (result.0 ≡ Status.Done) ⊎ (result.0
        ≡ Status.Memory) }
    ensures made { (result.0 ≡ Status.Memory → result.1.items ≡ [])
        × ((result.0 ≡ Status.Memory → ⊥) → result.1.items ≡ made.items) }
{
    let status = say(sink, text, Status::Done);
    match status {
        Status::Memory => (status, Vec::new(alloc)),
        _ => (status, made),
    }
}

fn limit_word(limit: &Limit) -> &[u8]
    ensures { result.now ≡ lines.limit_word limit.now }
{
    match limit {
        Limit::Input => b"input",
        Limit::Clients => b"clients",
        Limit::Servers => b"servers",
        Limit::Slots => b"slots",
        Limit::Hot => b"hot",
        Limit::Body => b"body",
        Limit::Ops => b"ops",
        Limit::Orders => b"orders",
        Limit::Snaps => b"snaps",
        Limit::Stops => b"stops",
        Limit::Picks => b"picks",
    }
}

/// The line of a refusal; other answers have none.
fn refusal_line(alloc: Global, status: Status) -> Result<Option<Vec<u8>>, Memory>
    ensures some { IfOk result (λ line. IfSome line (λ text. lines.refusal_line status ≡ Some text.items)) }
    ensures none { IfOk result (λ line. line ≡ None → lines.refusal_line status ≡ None) }
{
    let mut line = Vec::new(alloc);
    match status {
        Status::Usage => line.extend_from_slice(USAGE)?,
        Status::BadLine(number) => put_line(
            &mut line,
            &[Word::Text(b"bad line"), Word::Number(u64::from(number))],
        )?,
        Status::TooLarge(limit, number) => put_line(
            &mut line,
            &[
                Word::Text(b"too large"),
                Word::Text(limit_word(&limit)),
                Word::Text(b"line"),
                Word::Number(u64::from(number)),
            ],
        )?,
        Status::BadImage(number) => put_line(
            &mut line,
            &[
                Word::Text(b"bad image line"),
                Word::Number(u64::from(number)),
            ],
        )?,
        Status::Conflict(number) => put_line(
            &mut line,
            &[
                Word::Text(b"conflict line"),
                Word::Number(u64::from(number)),
            ],
        )?,
        Status::Wrong(number) => put_line(
            &mut line,
            &[
                Word::Text(b"audit no line"),
                Word::Number(u64::from(number)),
            ],
        )?,
        _ => return Ok(None),
    }
    Ok(Some(line))
}

/// Writes the line of a refusal; an answer that has no line writes nothing.
pub(crate) fn refuse<D: Sink>(alloc: Global, sink: &mut D, status: Status) -> Status
    requires { IsEarly status }
    ensures said { IfSome (lines.refusal_line status) (λ text. Says (D.written sink.old)
        (D.written sink.new) text status result) }
    ensures silent { lines.refusal_line status ≡ None → (D.written sink.new ≡ D.written sink.old) × ((result ≡ status) ⊎
        (result ≡ Status.Memory)) }
    ensures answer { IsAnswer status result }
    ensures unfailed { result ≢ Status.WriteFault → result ≢ Status.Memory → D.fault_count sink.new
        ≡ D.fault_count sink.old }
    ensures cause { result ≡ Status.WriteFault → Rose (D.fault_count sink.old) (D.fault_count sink.new) }
    ensures calm { ¬ Rose (D.fault_count sink.old) (D.fault_count sink.new) → (result ≡ status) ⊎ (result
        ≡ Status.Memory) }
{
    match refusal_line(alloc, status) {
        Ok(Some(line)) => say(sink, &line, status),
        Ok(None) => status,
        Err(_) => Status::Memory,
    }
}
