ghost use Rattle.std.specs.Prelude.{◌≡◌, List, ℕ, ◌++◌, [], ◌∷◌, IfOk, OnOk, codes, map, slice_index_or, Some};
ghost use Rattle.std.specs.Fmt.{decimal};
ghost use Rattle.far_base.specs.Key.{key_text};
ghost use Rattle.far_text.specs.Spelled.{word_text};
ghost use Rattle.far_text.specs.Text.{text_line, body_word};
ghost use Rattle.far_history.specs.Told.{unheard, op_told, answer_told};
ghost use Rattle.far_history.specs.RoomyLog.{log_view};
ghost use Rattle.far_history.specs.Stored.{body_in};
ghost use Rattle.far_history.specs.Report as words;
ghost use Rattle.far_history.specs.Rows.{row_text, spaced, history_by_rows, stored_control, stored_text};
ghost use Rattle.far_history.specs.Rows.{control_by_stored};

use crate::last_writes::last_writes;
use crate::log::Log;
use crate::places::places_in;
use crate::stored::{Bare, Stored, Stretch, body_at, text_at};
use crate::told::{Reply, Sending, Told, gather};
use far_base::{BODY_LIMIT, Key, Memory, Op, Placed, Record};
use far_text::{Word, put_line, put_text, put_word};
use std::alloc::Global;

fn kind_word(op: &Op) -> &[u8]
    ensures { result.now ≡ words.kind_word op.now }
{
    match op {
        Op::Get => b"get",
        Op::Put => b"put",
        Op::Del => b"del",
    }
}

fn source_word(near: &bool) -> &[u8]
    ensures { result.now ≡ words.source_word near.now }
{
    if *near { b"switch" } else { b"server" }
}

/// Writes the words, each with a space behind it.
fn put_spaced(out: &mut Vec<u8>, words: &[Word]) -> Result<(), Memory>
    ensures { OnOk result (out.new.items ≡ out.old.items ++ spaced (map word_text words.now)) }
{
    for word in words {
        put_word(out, word)?;
        put_text(out, b" ")?;
    }
    Ok(())
}

/// Writes the word of the body that stands there.
fn put_body_at(out: &mut Vec<u8>, bytes: &[u8], stretch: Stretch) -> Result<(), Memory>
    ensures { OnOk result (out.new.items ≡ out.old.items ++ body_word (body_in bytes.now stretch)) }
{
    let text = text_at(bytes, stretch);
    if !stretch.present || BODY_LIMIT < text.len() {
        return put_text(out, b"-");
    }
    put_text(out, b"=")?;
    put_text(out, text)
}

/// The words of the line of an operation that are no numbers; the body is one that stands among the bytes.
#[derive(Clone, Copy)]
struct RowWords<'a> {
    kind: &'a [u8],
    key: &'a Key,
    body: Stretch,
    source: &'a [u8],
}

/// Writes the line of an operation: its numbers, and its other words between them.
fn put_words(
    out: &mut Vec<u8>,
    bytes: &[u8],
    place: &Placed,
    client: u32,
    words: &RowWords,
    sent_at: u64,
    answered: u64,
) -> Result<(), Memory>
    ensures { OnOk result (out.new.items ≡ out.old.items ++ text_line
        (decimal place.now.op ∷ decimal client ∷ words.now.kind.now ∷ key_text words.now.key.now ∷ decimal place.now.num
        ∷ body_word (body_in bytes.now words.now.body) ∷ words.now.source.now
        ∷ decimal sent_at ∷ decimal answered ∷ [])) }
{
    put_spaced(
        out,
        &[
            Word::Number(u64::from(place.op)),
            Word::Number(u64::from(client)),
            Word::Text(words.kind),
            Word::Key(words.key),
            Word::Number(place.num),
        ],
    )?;
    put_body_at(out, bytes, words.body)?;
    put_text(out, b" ")?;
    put_line(
        out,
        &[
            Word::Text(words.source),
            Word::Number(sent_at),
            Word::Number(answered),
        ],
    )
}

/// Writes the line of an operation that was sent and answered.
fn put_answered(
    out: &mut Vec<u8>,
    bytes: &[u8],
    place: &Placed,
    sent: &Sending,
    reply: &Reply,
    answered: u64,
) -> Result<(), Memory>
    ensures { OnOk result (out.new.items ≡ out.old.items ++ words.placed_line place.now (Some
        (record { moment = sent.now.moment; what = op_told bytes.now sent.now })) (Some
        (record { moment = 0; what = answer_told bytes.now reply.now })) (Some
        (record { moment = answered; what = 0 }))) }
{
    let line = sent.line;
    let near = reply.near;
    let words = RowWords {
        kind: kind_word(&line.op),
        key: &line.key,
        body: if place.read { reply.body } else { sent.body },
        source: source_word(&near),
    };
    put_words(
        out,
        bytes,
        place,
        line.client,
        &words,
        sent.moment,
        answered,
    )
}

/// Writes the line of an entry of a slot.
fn put_slot<'a>(
    out: &mut Vec<u8>,
    first: &'a [u8],
    moment: u64,
    slot: u32,
    key: &'a Key,
    number: u64,
) -> Result<(), Memory>
    ensures { OnOk result (out.new.items ≡ out.old.items ++ text_line
        (first.now ∷ decimal moment ∷ decimal slot ∷ key_text key.now ∷ decimal number ∷ [])) }
{
    put_line(
        out,
        &[
            Word::Text(first),
            Word::Number(moment),
            Word::Number(u64::from(slot)),
            Word::Key(key),
            Word::Number(number),
        ],
    )
}

/// Writes a line of a word and one number.
fn put_count(out: &mut Vec<u8>, first: &[u8], count: u64) -> Result<(), Memory>
    ensures { OnOk result (out.new.items ≡ out.old.items ++ text_line (first.now ∷ decimal count ∷ [])) }
{
    put_line(out, &[Word::Text(first), Word::Number(count)])
}

/// Writes the line of a record.
fn put_record(out: &mut Vec<u8>, held: &Record) -> Result<(), Memory>
    ensures { OnOk result (out.new.items ≡ out.old.items ++ words.record_text held.now) }
{
    put_line(
        out,
        &[
            Word::Key(&held.key),
            Word::Number(held.num),
            Word::Body(&held.body),
        ],
    )
}

/// Writes the line of a record of a snapshot, whose body stands there.
fn put_stored_item(
    out: &mut Vec<u8>,
    bytes: &[u8],
    slot: u32,
    key: &Key,
    num: u64,
    stretch: Stretch,
) -> Result<(), Memory>
    ensures { OnOk result (out.new.items ≡ out.old.items ++ text_line
        (decimal slot ∷ key_text key.now ∷ decimal num ∷ body_word (body_in bytes.now stretch) ∷ [])) }
{
    let body = body_at(bytes, stretch);
    put_line(
        out,
        &[
            Word::Number(u64::from(slot)),
            Word::Key(key),
            Word::Number(num),
            Word::Body(&body),
        ],
    )
}

/// Writes the line of a record, whose body stands there.
fn put_stored_record(
    out: &mut Vec<u8>,
    bytes: &[u8],
    key: &Key,
    num: u64,
    stretch: Stretch,
) -> Result<(), Memory>
    ensures { OnOk result (out.new.items ≡ out.old.items ++ text_line (key_text key.now ∷ decimal num ∷ body_word
        (body_in bytes.now stretch) ∷ [])) }
{
    let body = body_at(bytes, stretch);
    put_line(out, &[Word::Key(key), Word::Number(num), Word::Body(&body)])
}

/// Writes the line of a completed snapshot.
fn put_snapshot(
    out: &mut Vec<u8>,
    moment: u64,
    id: u32,
    point: u64,
    count: u32,
) -> Result<(), Memory>
    ensures { OnOk result (out.new.items ≡ out.old.items ++ text_line
        (codes "snapshot" ∷ decimal moment ∷ decimal id ∷ decimal point ∷ decimal count ∷ [])) }
{
    put_line(
        out,
        &[
            Word::Text(b"snapshot"),
            Word::Number(moment),
            Word::Number(u64::from(id)),
            Word::Number(point),
            Word::Number(u64::from(count)),
        ],
    )
}

/// Writes the line of a recovery.
fn put_recovery(out: &mut Vec<u8>, moment: u64, counter: u64, count: u64) -> Result<(), Memory>
    ensures { OnOk result (out.new.items ≡ out.old.items ++ text_line
        (codes "recovered" ∷ decimal moment ∷ decimal counter ∷ decimal count ∷ [])) }
{
    put_line(
        out,
        &[
            Word::Text(b"recovered"),
            Word::Number(moment),
            Word::Number(counter),
            Word::Number(count),
        ],
    )
}

/// Writes the line of a control entry, and nothing for a line of an operation.
fn put_entry(out: &mut Vec<u8>, bytes: &[u8], line: &Stored) -> Result<(), Memory>
    ensures { OnOk result (out.new.items ≡ out.old.items ++ stored_text bytes.now line.now) }
{
    let moment = line.moment;
    match line.bare {
        Bare::Admitted { slot, key, tag } => { put_slot(out, b"admitted", moment, slot, &key, tag) }
        Bare::Evicted { slot, key, tries } => {
            put_slot(out, b"evicted", moment, slot, &key, u64::from(tries))
        }
        Bare::Kept { slot, key, num } => put_slot(out, b"kept", moment, slot, &key, num),
        Bare::Snapped {
            id,
            point,
            count,
            ..
        } => put_snapshot(out, moment, id, point, count),
        Bare::SnapItem { slot, key, num } => {
            put_stored_item(out, bytes, slot, &key, num, line.body)
        }
        Bare::Stopped => put_count(out, b"stopped", moment),
        Bare::Recovered { counter, count } => put_recovery(out, moment, counter, count),
        Bare::RecItem { key, num } => put_stored_record(out, bytes, &key, num, line.body),
        _ => Ok(()),
    }
}

/// Writes the line of a placed operation, if its row has all that the line tells.
fn put_row(out: &mut Vec<u8>, bytes: &[u8], place: &Placed, told: &Told) -> Result<(), Memory>
    ensures { OnOk result (out.new.items ≡ out.old.items ++ row_text bytes.now place.now told.now) }
{
    let Some(sent) = &told.sent else {
        return Ok(());
    };
    let Some(reply) = &told.emitted else {
        return Ok(());
    };
    let Some(answered) = told.answered else {
        return Ok(());
    };
    put_answered(out, bytes, place, sent, reply, answered)
}

fn put_placed(out: &mut Vec<u8>, bytes: &[u8], table: &[Told], place: &Placed) -> Result<(), Memory>
    ensures { OnOk result (out.new.items ≡ out.old.items ++ row_text bytes.now place.now
        (slice_index_or table.now place.now.op unheard)) }
{
    match table.get(place.op as usize) {
        Some(told) => put_row(out, bytes, place, told),
        None => Ok(()),
    }
}

fn put_history(
    out: &mut Vec<u8>,
    bytes: &[u8],
    table: &[Told],
    places: &[Placed],
) -> Result<(), Memory>
    ensures { OnOk result (out.new.items ≡ out.old.items ++ history_by_rows bytes.now table.now places.now) }
{
    put_count(out, b"history", places.len() as u64)?;
    for place in places {
        put_placed(out, bytes, table, place)?;
    }
    Ok(())
}

/// Whether the line is a control entry, and no item of one.
fn is_control(line: &Stored) -> bool
    ensures { (bytes : List ℕ) → result ≡ stored_control bytes line.now }
{
    match line.bare {
        Bare::Admitted { .. }
        | Bare::Evicted { .. }
        | Bare::Kept { .. }
        | Bare::Snapped { .. }
        | Bare::Stopped
        | Bare::Recovered { .. } => true,
        _ => false,
    }
}

fn put_control(out: &mut Vec<u8>, bytes: &[u8], lines: &[Stored]) -> Result<(), Memory>
    ensures { OnOk result (out.new.items ≡ out.old.items ++ control_by_stored bytes.now lines.now) }
{
    let count = lines.iter().filter(|line| is_control(line)).count();
    put_count(out, b"control", count as u64)?;
    for line in lines {
        put_entry(out, bytes, line)?;
    }
    Ok(())
}

fn put_map(out: &mut Vec<u8>, records: &[Record]) -> Result<(), Memory>
    ensures { OnOk result (out.new.items ≡ out.old.items ++ words.map_text records.now) }
{
    put_count(out, b"map", records.len() as u64)?;
    for record in records {
        put_record(out, record)?;
    }
    Ok(())
}

/// The report of a log: the steps, the history, the control entries in the order of the log, and the
/// final map. An operation of the history that was not sent, emitted and answered has no line.
pub fn report_text(alloc: Global, log: &Log) -> Result<Vec<u8>, Memory>
    ensures { IfOk result (λ text. words.IsReport (log_view log.now) text.items) }
{
    let (lines, bytes) = log.parts();
    let table = gather(alloc, lines)?;
    let places = places_in(alloc, &table, lines)?;
    let records = last_writes(alloc, bytes, &table, &places)?;
    let mut out = Vec::new(alloc);
    put_text(&mut out, b"far 1 report\n")?;
    put_count(&mut out, b"steps", log.steps())?;
    put_history(&mut out, bytes, &table, &places)?;
    put_control(&mut out, bytes, lines)?;
    put_map(&mut out, &records)?;
    put_text(&mut out, b"end\n")?;
    Ok(out)
}
