use crate::stored::{Bare, Stored};
use crate::told::{Reply, Sending, Told};
use far_base::{Key, Memory, Op};
use std::alloc::Global;
use std::cmp::Reverse;

/// A number of a key at which something happens: the switch shows it (`shown`, at the moment), or an operation waits
/// for it (`waits`, sent at `sent`), or both. Of those that show one number the last comes first.
#[derive(Clone, Copy, PartialEq, Eq, PartialOrd, Ord)]
pub(crate) struct Mark {
    pub key: Key,
    pub num: u64,
    pub shown: bool,
    pub moment: Reverse<u64>,
    pub waits: bool,
    pub read: bool,
    pub op: u32,
    pub sent: u64,
}

ghost use Rattle.std.specs.Prelude.{◌≡◌, ◌^◌, ◌≤◌, ◌++◌, List, length, OnOk, IfOk};
ghost use Rattle.far_history.specs.declared.marks.Mark.{Mark};
ghost use Rattle.far_model.specs.Log as model;
ghost use Rattle.far_history.specs.Marks.{awaited_number, is_number, is_reply, mark_shown, own_mark};
ghost use Rattle.far_history.specs.Marks.{or_more, reply_num, row_marks, sent_key, shown_in, shown_stored, wanted_mark};

/// Whether an answer is the first to its operation.
fn is_reply(first: &Option<Reply>, num: u64, moment: u64) -> bool
    ensures { result ≡ is_reply first.now num moment }
{
    match first {
        Some(reply) => reply.num == num && reply.moment == moment,
        None => false,
    }
}

/// The mark of an answer that is not the first to its operation, of which the row tells.
fn other_answer(told: &Told, op: u32, num: u64, moment: u64) -> Option<Mark>
    ensures { result ≡ mark_shown moment op num told.now.emitted (sent_key told.now.sent) }
{
    let Some(sent) = &told.sent else {
        return None;
    };
    if is_reply(&told.emitted, num, moment) {
        return None;
    }
    Some(Mark {
        key: sent.line.key,
        num,
        shown: true,
        moment: Reverse(moment),
        waits: false,
        read: false,
        op,
        sent: 0,
    })
}

/// The number that the line shows of a key, unless it is the first answer to its operation.
fn shown_by(table: &[Told], line: &Stored) -> Option<Mark>
    ensures { result ≡ shown_stored table.now line.now }
{
    let Bare::Emitted { op, num, .. } = line.bare else {
        return None;
    };
    other_answer(table.get(op as usize)?, op, num, line.moment)
}

/// Whether the operation reads.
fn is_read(op: Op) -> bool
    ensures { result ≡ model.is_read op }
{
    match op {
        Op::Get => true,
        Op::Put | Op::Del => false,
    }
}

/// The number for which a sent operation waits: an answered read for what it was answered with, a
/// write for its own number.
fn awaited(told: &Told, sent: &Sending) -> Option<u64>
    ensures { result ≡ awaited_number told.now sent.now }
{
    if !is_read(sent.line.op) {
        return told.numbered;
    }
    told.answered?;
    Some(told.emitted?.num)
}

fn reply_num(reply: &Option<Reply>) -> Option<u64>
    ensures { result ≡ reply_num reply.now }
{
    match reply {
        Some(reply) => Some(reply.num),
        None => None,
    }
}

fn is_number(number: Option<u64>, other: u64) -> bool
    ensures { result ≡ is_number number other }
{
    match number {
        Some(number) => number == other,
        None => false,
    }
}

/// The number that the first answer to the operation shows: mostly it is the one for which the operation waits.
fn own_by(told: &Told, op: u32) -> Option<Mark>
    ensures { result ≡ own_mark op told.now }
{
    let Some(sent) = &told.sent else {
        return None;
    };
    let Some(reply) = &told.emitted else {
        return None;
    };
    Some(Mark {
        key: sent.line.key,
        num: reply.num,
        shown: true,
        moment: Reverse(reply.moment),
        waits: is_number(awaited(told, sent), reply.num),
        read: is_read(sent.line.op),
        op,
        sent: sent.moment,
    })
}

/// What the operation waits for, where its first answer does not show it.
fn wanted_by(told: &Told, op: u32) -> Option<Mark>
    ensures { result ≡ wanted_mark op told.now }
{
    let Some(sent) = &told.sent else {
        return None;
    };
    let num = awaited(told, sent)?;
    if is_number(reply_num(&told.emitted), num) {
        return None;
    }
    Some(Mark {
        key: sent.line.key,
        num,
        shown: false,
        moment: Reverse(0),
        waits: true,
        read: is_read(sent.line.op),
        op,
        sent: sent.moment,
    })
}

fn add_shown(marks: &mut Vec<Mark>, table: &[Told], lines: &[Stored]) -> Result<(), Memory>
    ensures { OnOk result (marks.new.items ≡ marks.old.items ++ shown_in table.now lines.now) }
{
    for line in lines {
        if let Some(mark) = shown_by(table, line) {
            marks.push(mark).map_err(|_| Memory)?;
        }
    }
    Ok(())
}

fn add_mark(marks: &mut Vec<Mark>, mark: &Option<Mark>) -> Result<(), Memory>
    ensures { OnOk result ((more : List Mark) → marks.new.items ++ more ≡ marks.old.items ++ or_more mark.now more) }
{
    if let Some(mark) = mark {
        marks.push(*mark).map_err(|_| Memory)?;
    }
    Ok(())
}

fn add_rows(marks: &mut Vec<Mark>, table: &[Told]) -> Result<(), Memory>
    requires { length table.now ≤ 2 ^ 32 }
    ensures { OnOk result (marks.new.items ≡ marks.old.items ++ row_marks 0 table.now) }
{
    for (op, told) in table.iter().enumerate() {
        add_mark(marks, &own_by(told, op as u32))?;
        add_mark(marks, &wanted_by(told, op as u32))?;
    }
    Ok(())
}

/// All numbers that are shown, and all that operations wait for.
pub(crate) fn all_marks(
    alloc: Global,
    table: &[Told],
    lines: &[Stored],
) -> Result<Vec<Mark>, Memory>
    requires { length table.now ≤ 2 ^ 32 }
    ensures { IfOk result (λ marks. marks.items ≡ shown_in table.now lines.now ++ row_marks 0 table.now) }
{
    let mut marks = Vec::with_capacity(alloc, table.len())?;
    add_shown(&mut marks, table, lines)?;
    add_rows(&mut marks, table)?;
    Ok(marks)
}
