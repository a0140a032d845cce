ghost use Rattle.std.specs.Prelude.{◌≡◌, ◌≤◌, ◌<◌, ◌^◌, ◌++◌, length, map, IfOk};
ghost use Rattle.std.specs.List.{AllByRecursion};
ghost use Rattle.far_base.specs.Key.{key_text};
ghost use Rattle.far_base.specs.Padded.{length_of};
ghost use Rattle.far_base.specs.declared.body.TheConstants.{BODY_LIMIT};
ghost use Rattle.far_text.specs.Words.{IsKey};
ghost use Rattle.workload.specs.Meaning.{IsWholeOp, IsWholeOrder, IsReading};
ghost use Rattle.far_base.specs.declared.plan.Order.TheVariants.{StopAt};
ghost use Rattle.workload.specs.Kinds.{kind_name};
ghost use Rattle.workload.specs.Forms.{OfOp, OfOrder, OfPicks};
ghost use Rattle.workload.specs.Plain.{IsPlain};
ghost use Rattle.workload.specs.Spelling.{number_text, number_line, number_key_text, head_text, verb_text, body_text};
ghost use Rattle.workload.specs.Spelling.{order_text, line_text, lines_text, rows, random_forms, spelling};
ghost use Rattle.workload.specs.Rows.{pick_text, next_place};
ghost use Rattle.workload.specs.declared.printer.TheConstants.{PICKS_PER_LINE};

use crate::load::Workload;
use far_base::{Body, Config, Key, Memory, Op, OpLine, Ops, Order, PassKind};
use far_text::{put_body, put_key, put_number, put_text};
use std::alloc::Global;

/// The number of picks in a line; the last line has the rest.
pub const PICKS_PER_LINE: u32 = 1000;

/// Writes the text and the number behind it.
fn put_numbered(out: &mut Vec<u8>, text: &[u8], number: u64) -> Result<(), Memory>
    ensures { IfOk result (λ _. out.new.items ≡ out.old.items ++ number_text text.now number) }
{
    put_text(out, text)?;
    put_number(out, number)
}

fn put_number_line(out: &mut Vec<u8>, text: &[u8], number: u64) -> Result<(), Memory>
    ensures { IfOk result (λ _. out.new.items ≡ out.old.items ++ number_line text.now number) }
{
    put_numbered(out, text, number)?;
    put_text(out, b"\n")
}

fn put_number_and_key(out: &mut Vec<u8>, text: &[u8], number: u64, key: &Key) -> Result<(), Memory>
    ensures text { IfOk result (λ _. out.new.items ≡ out.old.items ++ number_key_text text.now number key.now) }
    ensures key { IfOk result (λ _. IsKey key.now) }
{
    put_numbered(out, text, number)?;
    put_text(out, b" ")?;
    put_key(out, key)
}

fn put_head(out: &mut Vec<u8>, config: &Config) -> Result<(), Memory>
    ensures { IfOk result (λ _. out.new.items ≡ out.old.items ++ head_text config.now) }
{
    put_text(out, b"far 1\n")?;
    put_number_line(out, b"clients ", u64::from(config.clients))?;
    put_number_line(out, b"servers ", u64::from(config.servers))?;
    put_number_line(out, b"slots ", u64::from(config.slots))?;
    put_number_line(out, b"hot ", u64::from(config.hot))
}

fn put_op_body(out: &mut Vec<u8>, body: &Body) -> Result<(), Memory>
    ensures text { IfOk result (λ _. out.new.items ≡ out.old.items ++ body_text body.now) }
    ensures short { IfOk result (λ _. length_of body.now ≤ BODY_LIMIT) }
{
    if !body.is_present() {
        return Ok(());
    }
    put_text(out, b" ")?;
    put_body(out, body)
}

fn verb(op: Op) -> &'static [u8]
    ensures { result.now ≡ verb_text op }
{
    match op {
        Op::Get => b"get ",
        Op::Put => b"put ",
        Op::Del => b"del ",
    }
}

fn put_op(out: &mut Vec<u8>, line: &OpLine) -> Result<(), Memory>
    ensures text { IfOk result (λ _. out.new.items ≡ out.old.items ++ line_text (OfOp line.now)) }
    ensures whole { IfOk result (λ _. IsWholeOp line.now) }
{
    put_number_and_key(out, verb(line.op), u64::from(line.client), &line.key)?;
    put_op_body(out, &line.body)?;
    put_text(out, b"\n")
}

fn kind_name(kind: PassKind) -> &'static [u8]
    ensures { result.now ≡ kind_name kind }
{
    match kind {
        PassKind::GetReq => b"getreq",
        PassKind::WriteReq => b"writereq",
        PassKind::GetRep => b"getrep",
        PassKind::WriteRep => b"writerep",
        PassKind::Admit => b"admit",
        PassKind::Peek => b"peek",
        PassKind::Remove => b"remove",
        PassKind::SnapStart => b"snapstart",
        PassKind::SnapRead => b"snapread",
    }
}

fn put_stop_at(out: &mut Vec<u8>, kind: PassKind, times: u64) -> Result<(), Memory>
    ensures { IfOk result (λ _. out.new.items ≡ out.old.items ++ order_text (StopAt kind times)) }
{
    put_text(out, b"stop ")?;
    put_text(out, kind_name(kind))?;
    put_numbered(out, b" ", times)
}

fn put_order_words(out: &mut Vec<u8>, order: &Order) -> Result<(), Memory>
    ensures text { IfOk result (λ _. out.new.items ≡ out.old.items ++ order_text order.now) }
    ensures whole { IfOk result (λ _. IsWholeOrder order.now) }
{
    match order {
        Order::Admit { step, key } => put_number_and_key(out, b"admit ", *step, key),
        Order::Evict { step, key } => put_number_and_key(out, b"evict ", *step, key),
        Order::Snap { step } => put_numbered(out, b"snap ", *step),
        Order::Stop { step } => put_numbered(out, b"stop ", *step),
        Order::StopAt { kind, times } => put_stop_at(out, *kind, *times),
    }
}

fn put_order(out: &mut Vec<u8>, order: &Order) -> Result<(), Memory>
    ensures text { IfOk result (λ _. out.new.items ≡ out.old.items ++ line_text (OfOrder order.now)) }
    ensures whole { IfOk result (λ _. IsWholeOrder order.now) }
{
    put_order_words(out, order)?;
    put_text(out, b"\n")
}

fn put_ops(out: &mut Vec<u8>, ops: &Ops) -> Result<(), Memory>
    ensures text { IfOk result (λ _. out.new.items ≡ out.old.items ++ lines_text (map OfOp ops.now)) }
    ensures whole { IfOk result (λ _. AllByRecursion IsWholeOp ops.now) }
{
    for place in 0..ops.len() {
        put_op(out, &ops.line(place))?;
    }
    Ok(())
}

fn put_orders(out: &mut Vec<u8>, orders: &[Order]) -> Result<(), Memory>
    ensures text { IfOk result (λ _. out.new.items ≡ out.old.items ++ lines_text (map OfOrder orders.now)) }
    ensures whole { IfOk result (λ _. AllByRecursion IsWholeOrder orders.now) }
{
    for order in orders {
        put_order(out, order)?;
    }
    Ok(())
}

/// Writes a pick behind so many others of its line.
fn put_pick(out: &mut Vec<u8>, place: u32, pick: u64) -> Result<(), Memory>
    requires { place ≤ PICKS_PER_LINE }
    ensures { IfOk result (λ _. out.new.items ≡ out.old.items ++ pick_text place pick) }
{
    if place == 0 {
        put_numbered(out, b"picks ", pick)
    } else if place == PICKS_PER_LINE {
        put_numbered(out, b"\npicks ", pick)
    } else {
        put_numbered(out, b" ", pick)
    }
}

fn next_place(place: u32) -> u32
    requires { place ≤ PICKS_PER_LINE }
    ensures value { result ≡ next_place place }
    ensures bound { result ≤ PICKS_PER_LINE }
{
    if place == PICKS_PER_LINE {
        1
    } else {
        place + 1
    }
}

fn put_picks(out: &mut Vec<u8>, picks: &[u64]) -> Result<(), Memory>
    ensures { IfOk result (λ _. out.new.items ≡ out.old.items ++ lines_text (map OfPicks (rows picks.now))) }
{
    let mut place = 0;
    for pick in picks {
        put_pick(out, place, *pick)?;
        place = next_place(place);
    }
    if place == 0 {
        return Ok(());
    }
    put_text(out, b"\n")
}

fn put_random(out: &mut Vec<u8>, random: Option<u64>) -> Result<(), Memory>
    ensures { IfOk result (λ _. out.new.items ≡ out.old.items ++ lines_text (random_forms random)) }
{
    match random {
        Some(start) => put_number_line(out, b"random ", start),
        None => Ok(()),
    }
}

/// The text of the workload: the head, the operations, the orders, the picks at `PICKS_PER_LINE` a
/// line and the rest in the last one, and the start number where there is one.
pub fn print(alloc: Global, load: &Workload) -> Result<Vec<u8>, Memory>
    requires { IsPlain load.now }
    ensures text { IfOk result (λ text. text.items ≡ spelling load.now) }
    // What is printed reads as the workload again.
    ensures reads { IfOk result (λ text. IsReading text.items load.now) }
    // It is short enough to be read.
    ensures short { IfOk result (λ text. length text.items < 2 ^ 32) }
{
    let mut out = Vec::new(alloc);
    put_head(&mut out, &load.plan.config)?;
    put_ops(&mut out, &load.plan.ops)?;
    put_orders(&mut out, &load.plan.orders)?;
    put_picks(&mut out, &load.picks)?;
    put_random(&mut out, load.random)?;
    Ok(out)
}
