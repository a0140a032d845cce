ghost use Rattle.std.specs.Prelude.{◌≡◌, ◌+◌, ◌≤◌, ◌<◌, ◌++◌, ◌∷◌, ◌&&◌, ◌||◌, [], true, false, not, nat_eq, nat_lt};
ghost use Rattle.std.specs.Prelude.{List, length, slice_get, IfSome, IsSome, None, Some};
ghost use Rattle.far_base.specs.declared.plan.TheConstants.{OP_LIMIT};
ghost use Rattle.far_model.specs.History.{nothing};
ghost use Rattle.far_model.specs.Log.{is_read, same_key};
ghost use Rattle.far_model.specs.Members.{Each};
ghost use Rattle.log_audit.specs.Good.{IsFirstBad, IsGood, held_of as held};
ghost use Rattle.log_audit.specs.Reason.{IsHistFault, IsReason};
ghost use Rattle.log_audit.specs.Walk.{clash, map_after};
ghost use Rattle.log_audit.specs.declared.line.HistLine.{HistLine as Line};

use crate::judging::{held_of, is_read, is_same};
use crate::line::HistLine;
use far_base::{Body, Key, Versioned};
use std::fmt;

/// What is wrong with a line of a history behind the lines before it.
#[derive(Clone, Copy)]
pub enum HistFault {
    /// The operation was answered no later than it was sent.
    Span,
    /// The line at this place, counted from 0, is of the same operation.
    Twice(u32),
    /// The operation of the line at this place, counted from 0, was sent after this one was answered.
    Early(u32, HistLine),
    /// The operation did not read what its key was set to last, which is this.
    Unwritten(Versioned),
}

/// Why a history is not good.
#[derive(Clone, Copy)]
pub struct Reason {
    /// The number of the line in the report, counted from 1.
    pub number: u32,
    /// What the line says.
    pub line: HistLine,
    /// What is wrong with it.
    pub fault: HistFault,
}

/// Whether the later line is of the same operation, or was answered before the earlier one was sent.
fn clashes(earlier: &HistLine, line: &HistLine) -> bool
    ensures { result ≡ clash earlier.now line.now }
{
    earlier.op == line.op || line.answered < earlier.sent
}

/// The first of the lines with which this one clashes, and its place.
fn first_clash(before: &[HistLine], line: &HistLine) -> Option<(u32, HistLine)>
    requires { length before.now ≤ OP_LIMIT }
    ensures stands { IfSome result (λ found. slice_get before.now found.0 ≡ Some found.1) }
    ensures clash { IfSome result (λ found. clash found.1 line.now ≡ true) }
    ensures none { result ≡ None → Each (λ (x : Line). clash x line.now ≡ false) before.now }
{
    let mut place = 0;
    for earlier in before {
        if clashes(earlier, line) {
            return Some((place, *earlier));
        }
        place += 1;
    }
    None
}

/// Whether the line's operation writes the key.
fn sets(line: &HistLine, key: &Key) -> bool
    ensures { result ≡ (not (is_read line.now.kind) && same_key key.now line.now.key) }
{
    !is_read(line.kind) && *key == line.key
}

/// What the lines leave the key set to.
fn set_last(lines: &[HistLine], key: &Key) -> Versioned
    ensures { result ≡ map_after (λ k. nothing) lines.now key.now }
{
    let mut last = Versioned {
        num: 0,
        body: Body::absent(),
    };
    for line in lines {
        if sets(line, key) {
            last = held_of(line);
        }
    }
    last
}

/// What is wrong with the order of the line and those before it.
fn order_fault(before: &[HistLine], line: &HistLine) -> Option<HistFault>
    requires { length before.now ≤ OP_LIMIT }
    ensures told { IfSome result (IsHistFault before.now line.now) }
    ensures none { result ≡ None → Each (λ (x : Line). clash x line.now ≡ false) before.now }
{
    let (place, earlier) = first_clash(before, line)?;
    if earlier.op == line.op {
        Some(HistFault::Twice(place))
    } else {
        Some(HistFault::Early(place, earlier))
    }
}

/// What is wrong with what the line's operation read.
fn read_fault(before: &[HistLine], line: &HistLine) -> Option<HistFault>
    ensures told { IfSome result (IsHistFault before.now line.now) }
    ensures none { result ≡ None → is_read line.now.kind ≡ true → held line.now
        ≡ map_after (λ k. nothing) before.now line.now.key }
{
    let last = set_last(before, &line.key);
    if is_read(line.kind) && !is_same(&held_of(line), &last) {
        Some(HistFault::Unwritten(last))
    } else {
        None
    }
}

fn fault_behind(before: &[HistLine], line: &HistLine) -> Option<HistFault>
    requires { length before.now ≤ OP_LIMIT }
    ensures told { IfSome result (IsHistFault before.now line.now) }
    ensures none { result ≡ None → IsGood before.now → IsGood (before.now ++ line.now ∷ []) }
{
    if line.answered <= line.sent {
        return Some(HistFault::Span);
    }
    match order_fault(before, line) {
        Some(fault) => Some(fault),
        None => read_fault(before, line),
    }
}

/// What is wrong with the last of so many first lines. It is always told where `audit` told this count. The lines are
/// walked over twice.
pub fn explain(lines: &[HistLine], count: u32) -> Option<Reason>
    requires within { count ≤ length lines.now }
    requires few { length lines.now ≤ OP_LIMIT }
    // What is told is true of the line that is named.
    ensures told { IfSome result (IsReason lines.now count) }
    // Something is told where so many lines, and no fewer, are not good.
    ensures some { IsFirstBad lines.now count → IsSome result }
{
    if count == 0 {
        return None;
    }
    let at = count as usize - 1;
    let line = lines[at];
    let fault = fault_behind(&lines[..at], &line)?;
    Some(Reason {
        number: count + 3,
        line,
        fault,
    })
}

/// The text of a key.
#[derive(Drop)]
struct Shown<'a> {
    key: &'a Key,
}

impl fmt::Display for Shown<'_> {
    fn fmt<W: fmt::Write>(&self, f: &mut fmt::Formatter<W>) -> fmt::Result {
        for byte in self.key.text() {
            let letter = char::from(*byte);
            write!(f, "{letter}")?;
        }
        Ok(())
    }
}

/// The line and what is wrong with it, in words.
impl fmt::Display for Reason {
    fn fmt<W: fmt::Write>(&self, f: &mut fmt::Formatter<W>) -> fmt::Result {
        let number = self.number;
        let op = self.line.op;
        let num = self.line.num;
        let sent = self.line.sent;
        let answered = self.line.answered;
        let key = Shown {
            key: &self.line.key,
        };
        write!(f, "line {number}: operation {op} ")?;
        match self.fault {
            HistFault::Span => write!(
                f,
                "was answered at step {answered}, and sent no earlier than that, at step {sent}"
            ),
            HistFault::Twice(place) => {
                let first = u64::from(place) + 4;
                write!(f, "has a line before this one, line {first}")
            }
            HistFault::Early(_, earlier) => {
                let other = earlier.op;
                let later = earlier.sent;
                write!(
                    f,
                    "was answered at step {answered}, before operation {other} "
                )?;
                write!(f, "was sent at step {later}, and stands behind it")
            }
            HistFault::Unwritten(last) => {
                let written = last.num;
                write!(f, "reads version {num} of key {key}, ")?;
                if written == 0 && !last.body.is_present() {
                    write!(f, "but nothing was there before it in this order")
                } else if written == num {
                    write!(
                        f,
                        "with another body than was written as that version before it"
                    )
                } else {
                    write!(
                        f,
                        "but version {written} was written before it in this order"
                    )
                }
            }
        }
    }
}
