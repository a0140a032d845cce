ghost use Rattle.std.specs.Prelude.{◌≡◌, ◌≤◌, ◌+◌, ◌<◌, ◌^◌, length, IfOk};
ghost use Rattle.far_text.specs.Pieces.{pieces};
ghost use Rattle.workload.specs.Outcome.{Gives};
ghost use Rattle.workload.specs.Words.{named};
ghost use Rattle.workload.specs.Reading.{next_line, title_of, size_of, head_of};

use crate::fault::{Limit, WorkFault};
use crate::words::is_word;
use far_base::{CLIENT_LIMIT, Config, HOT_LIMIT, SERVER_LIMIT, SLOT_LIMIT};
use far_text::{Lines, number_of};

fn named_number(line: &[u8], name: &[u8]) -> Option<u64>
    ensures { result ≡ named name.now line.now }
{
    number_of(line.strip_prefix(name)?)
}

/// The next whole line. `BadLine` where none is left, with the number that it would have.
#[tactic(auto, using(crate::proofs::NextLine::line_next, crate::proofs::NextLine::line_missing))]
pub fn next_line<'a>(lines: &mut Lines<'a>) -> Result<&'a [u8], WorkFault>
    requires { lines.old.read + 1 < 2 ^ 32 }
    ensures line { Gives (λ line. (line.now, pieces 10 lines.new.rest.now)) result
        (next_line lines.old.read (pieces 10 lines.old.rest.now)) }
    ensures shorter { IfOk result (λ _. length lines.new.rest.now < length lines.old.rest.now) }
    ensures count { IfOk result (λ _. lines.new.read ≡ lines.old.read + 1) }
{
    match lines.next_line() {
        Some(line) => Ok(line),
        None => Err(WorkFault::BadLine(lines.read + 1)),
    }
}

fn title(lines: &mut Lines) -> Result<(), WorkFault>
    requires { lines.old.read ≡ 0 }
    ensures line { Gives (λ _. pieces 10 lines.new.rest.now) result (title_of (pieces 10 lines.old.rest.now)) }
    ensures shorter { IfOk result (λ _. length lines.new.rest.now < length lines.old.rest.now) }
    ensures count { IfOk result (λ _. lines.new.read ≡ 1) }
{
    if is_word(next_line(lines)?, b"far 1") {
        Ok(())
    } else {
        Err(WorkFault::BadLine(lines.read))
    }
}

/// The number behind a name, on a line of its own, within these bounds.
pub fn size(
    lines: &mut Lines,
    name: &[u8],
    least: u32,
    most: u32,
    which: Limit,
) -> Result<u32, WorkFault>
    requires { lines.old.read + 1 < 2 ^ 32 }
    ensures line { Gives (λ k. (k, pieces 10 lines.new.rest.now)) result
        (size_of lines.old.read name.now least most which (pieces 10 lines.old.rest.now)) }
    ensures shorter { IfOk result (λ _. length lines.new.rest.now < length lines.old.rest.now) }
    ensures count { IfOk result (λ _. lines.new.read ≡ lines.old.read + 1) }
    ensures within { IfOk result (λ k. (least ≤ k) × (k ≤ most)) }
{
    let line = next_line(lines)?;
    let Some(number) = named_number(line, name) else {
        return Err(WorkFault::BadLine(lines.read));
    };
    if number < u64::from(least) {
        return Err(WorkFault::BadLine(lines.read));
    }
    if u64::from(most) < number {
        return Err(WorkFault::TooLarge(which, lines.read));
    }
    Ok(number as u32)
}

/// The first five lines.
#[tactic(auto, unfolding(crate::specs::Reading::head_of))]
pub(crate) fn head(lines: &mut Lines) -> Result<Config, WorkFault>
    requires { lines.old.read ≡ 0 }
    ensures head { Gives (λ config. (config, pieces 10 lines.new.rest.now)) result
        (head_of (pieces 10 lines.old.rest.now)) }
    ensures shorter { IfOk result (λ _. length lines.new.rest.now + 5 ≤ length lines.old.rest.now) }
    ensures count { IfOk result (λ _. lines.new.read ≡ 5) }
{
    title(lines)?;
    let clients = size(lines, b"clients ", 1, CLIENT_LIMIT, Limit::Clients)?;
    let servers = size(lines, b"servers ", 1, SERVER_LIMIT, Limit::Servers)?;
    let slots = size(lines, b"slots ", 1, SLOT_LIMIT, Limit::Slots)?;
    let hot = size(lines, b"hot ", 0, HOT_LIMIT, Limit::Hot)?;
    Ok(Config {
        clients,
        servers,
        slots,
        hot,
    })
}
