use crate::stored::{Bare, Doing, Stored, Stretch};
use far_base::Memory;
use std::alloc::Global;

/// When an operation was sent, and what it does.
#[derive(Clone, Copy)]
pub(crate) struct Sending {
    pub moment: u64,
    pub line: Doing,
    pub body: Stretch,
}

/// When the answer to an operation left the switch, and what it says.
#[derive(Clone, Copy)]
pub(crate) struct Reply {
    pub moment: u64,
    pub num: u64,
    pub near: bool,
    pub body: Stretch,
}

/// What a log tells of one operation: the first line of each kind.
#[derive(Clone, Copy)]
pub(crate) struct Told {
    pub sent: Option<Sending>,
    pub numbered: Option<u64>,
    pub emitted: Option<Reply>,
    pub answered: Option<u64>,
}

ghost use Rattle.std.specs.Prelude.{◌≡◌, ℕ, ◌+◌, ◌^◌, ◌<◌, ◌≤◌, length, slice_index_or, IfOk};
ghost use Rattle.far_history.specs.declared.stored.Stored.{Stored};
ghost use Rattle.far_history.specs.Told.{op_bound_of, unheard, noted, IsTable};

/// One more than the operation that the line names, or 0.
fn op_bound(line: &Stored) -> usize
    ensures value { result ≡ op_bound_of line.now.bare }
    ensures bound { result ≤ 2 ^ 32 }
{
    match line.bare {
        Bare::Sent { op, .. } => op as usize + 1,
        Bare::Numbered { op, .. } => op as usize + 1,
        Bare::Emitted { op, .. } => op as usize + 1,
        Bare::Answered { op } => op as usize + 1,
        _ => 0,
    }
}

/// One more than the greatest operation that the lines name, or 0.
fn ops_bound(lines: &[Stored]) -> usize
    ensures above { (k : ℕ) (d : Stored) → k < length lines.now → op_bound_of
        (slice_index_or lines.now k d).bare ≤ result }
    ensures bound { result ≤ 2 ^ 32 }
{
    let mut bound = 0;
    for line in lines {
        bound = op_bound(line).max(bound);
    }
    bound
}

/// Puts what the line tells into the table, over what later lines told.
fn note(table: &mut [Told], line: &Stored)
    requires { op_bound_of line.now.bare ≤ length table.old }
    ensures { table.new ≡ noted line.now table.old }
{
    let moment = line.moment;
    let body = line.body;
    match line.bare {
        Bare::Sent { op, line } => table[op as usize].sent = Some(Sending { moment, line, body }),
        Bare::Numbered { op, num } => table[op as usize].numbered = Some(num),
        Bare::Emitted { op, num, near } => {
            table[op as usize].emitted = Some(Reply {
                moment,
                num,
                near,
                body,
            })
        }
        Bare::Answered { op } => table[op as usize].answered = Some(moment),
        _ => {}
    }
}

/// What the lines tell of each operation, by the operation's number.
pub(crate) fn gather(alloc: Global, lines: &[Stored]) -> Result<Vec<Told>, Memory>
    ensures rows { IfOk result (λ table. IsTable lines.now table.items) }
    ensures bound { IfOk result (λ table. length table.items ≤ 2 ^ 32) }
{
    let nothing = Told {
        sent: None,
        numbered: None,
        emitted: None,
        answered: None,
    };
    let mut table = vec![in alloc; nothing; ops_bound(lines)]?;
    let mut i = lines.len();
    while i > 0 {
        i -= 1;
        note(&mut table, &lines[i]);
    }
    Ok(table)
}

/// When the operation was sent, and what it does.
pub(crate) fn sending_of(table: &[Told], op: u32) -> Option<Sending>
    ensures { result ≡ (slice_index_or table.now op unheard).sent }
{
    table.get(op as usize)?.sent
}
