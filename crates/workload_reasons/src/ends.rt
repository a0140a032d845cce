ghost use Rattle.std.specs.Prelude.{◌≡◌, ◌+◌, ◌≤◌, ◌<◌, ◌^◌, length, drop, [], None, IfSome};
ghost use Rattle.far_text.specs.Options.{Shows};
ghost use Rattle.far_text.specs.Pieces.{pieces};
ghost use Rattle.workload_reasons.specs.Ends.{line_of, is_open, clients_of, is_start, first_start, from_line};

use crate::heads::named;
use far_text::{Lines, cut};

/// The text behind so many lines.
#[tactic(auto, using(crate::proofs::Places::next_from, crate::proofs::Places::past_end))]
fn behind(text: &[u8], count: u32) -> Option<&[u8]>
    ensures some { IfSome result (λ rest. drop count (pieces 10 text.now) ≡ pieces 10 rest.now) }
    ensures none { result ≡ None → drop count (pieces 10 text.now) ≡ [] }
    ensures shorter { IfSome result (λ rest. count + length rest.now ≤ length text.now) }
{
    let mut lines = Lines::new(text);
    for _ in 0..count {
        lines.next_line()?;
    }
    Some(lines.rest)
}

/// The line with this number, without its end.
#[tactic(auto, using(crate::proofs::Places::line_there, crate::proofs::Places::line_away))]
pub(crate) fn line_of(text: &[u8], number: u32) -> Option<&[u8]>
    requires { 1 ≤ number }
    ensures { Shows (λ line. line.now) result (line_of text.now number) }
{
    let (line, _) = cut(behind(text, number - 1)?, b'\n')?;
    Some(line)
}

/// Whether the text ends within the line with this number.
#[tactic(auto, using(crate::proofs::Places::open_there, crate::proofs::Places::open_away))]
pub(crate) fn is_open(text: &[u8], number: u32) -> bool
    requires { 1 ≤ number }
    ensures { result ≡ is_open (from_line number text.now) }
{
    match behind(text, number - 1) {
        Some(rest) => !rest.is_empty() && cut(rest, b'\n').is_none(),
        None => false,
    }
}

/// The number of clients that line 2 gives.
pub(crate) fn clients_of(text: &[u8]) -> Option<u64>
    ensures { result ≡ clients_of text.now }
{
    named(line_of(text, 2)?, b"clients ")
}

/// Whether the line gives a start number.
pub(crate) fn is_start(line: &[u8]) -> bool
    ensures { result ≡ is_start line.now }
{
    named(line, b"random ").is_some()
}

/// The number of the first line behind the head that gives a start number.
#[tactic(auto, using(crate::proofs::Places::start_cut, crate::proofs::Places::start_last))]
pub(crate) fn first_start(text: &[u8]) -> Option<u32>
    requires { length text.now < 2 ^ 32 }
    ensures { result ≡ first_start text.now }
{
    let mut rest = behind(text, 5)?;
    let mut number = 5;
    while let Some((line, more)) = cut(rest, b'\n') {
        number += 1;
        if is_start(line) {
            return Some(number);
        }
        rest = more;
    }
    None
}
