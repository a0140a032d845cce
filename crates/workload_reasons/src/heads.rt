ghost use Rattle.std.specs.Prelude.{◌≡◌, ◌≤◌, ℕ, List, None, IfSome, false, true, codes, bytes_eq};
ghost use Rattle.far_text.specs.Options.{Shows};
ghost use Rattle.workload.specs.Words.{behind, named};
ghost use Rattle.workload_reasons.specs.Heads.{head_at, is_plain, IsTitleFault, IsSizeFault, IsHeadFault, IsHead};
ghost use Rattle.workload_reasons.specs.Spelled.{first_other, Has};

use crate::reason::{HeadFault, HeadLine};
use crate::spelled::number_fault;
use far_text::number_of;

/// The line of the head with this number.
pub(crate) fn head_at(number: u32) -> Option<HeadLine>
    ensures { result ≡ head_at number }
{
    match number {
        1 => Some(HeadLine::Title),
        2 => Some(HeadLine::Clients),
        3 => Some(HeadLine::Servers),
        4 => Some(HeadLine::Slots),
        5 => Some(HeadLine::Hot),
        _ => None,
    }
}

/// Whether the byte is a visible character or a space.
fn is_plain(byte: u8) -> bool
    ensures { result ≡ is_plain byte }
{
    byte.is_ascii_graphic() || byte == b' '
}

/// The first byte that is no visible character and no space.
fn first_odd(line: &[u8]) -> Option<u8>
    ensures { result ≡ first_other is_plain line.now }
{
    for byte in line {
        if !is_plain(*byte) {
            return Some(*byte);
        }
    }
    None
}

/// A line that does not begin as it is to.
fn other_text(line: &[u8]) -> HeadFault
    ensures title { bytes_eq line.now (codes "far 1") ≡ false → IsTitleFault line.now result }
    ensures size { (name : List ℕ) (least : ℕ) → behind name line.now ≡ None → IsSizeFault name least line.now result }
{
    match first_odd(line) {
        Some(byte) => HeadFault::Byte(byte),
        None => HeadFault::Text,
    }
}

/// What stands behind the name.
fn behind_name<'a>(line: &'a [u8], name: &[u8]) -> Option<&'a [u8]>
    ensures { Shows (λ word. word.now) result (behind name.now line.now) }
{
    line.strip_prefix(name)
}

fn title_fault(line: &[u8]) -> Option<HeadFault>
    ensures told { IfSome result (IsTitleFault line.now) }
    ensures none { result ≡ None → bytes_eq line.now (codes "far 1") ≡ true }
{
    if line == b"far 1".as_slice() {
        None
    } else {
        Some(other_text(line))
    }
}

/// Why the line is not this name and a number that is at least this.
fn size_fault(line: &[u8], name: &[u8], least: u64) -> Option<HeadFault>
    ensures told { IfSome result (IsSizeFault name.now least line.now) }
    ensures none { result ≡ None → Has (named name.now line.now) (λ n. least ≤ n) }
{
    let Some(word) = behind_name(line, name) else {
        return Some(other_text(line));
    };
    if let Some(fault) = number_fault(word) {
        return Some(HeadFault::Number(fault));
    }
    if number_of(word)? < least {
        Some(HeadFault::Zero)
    } else {
        None
    }
}

/// Why the line is not this line of the head.
pub(crate) fn head_fault(head: HeadLine, line: &[u8]) -> Option<HeadFault>
    ensures told { IfSome result (IsHeadFault head line.now) }
    ensures none { result ≡ None → IsHead head line.now }
{
    match head {
        HeadLine::Title => title_fault(line),
        HeadLine::Clients => size_fault(line, b"clients ", 1),
        HeadLine::Servers => size_fault(line, b"servers ", 1),
        HeadLine::Slots => size_fault(line, b"slots ", 1),
        HeadLine::Hot => size_fault(line, b"hot ", 0),
    }
}

/// The number behind the name.
pub(crate) fn named(line: &[u8], name: &[u8]) -> Option<u64>
    ensures { result ≡ named name.now line.now }
{
    number_of(behind_name(line, name)?)
}
