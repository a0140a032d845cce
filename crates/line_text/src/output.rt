ghost use Rattle.std.specs.Prelude.{◌≡◌, ◌+◌, ◌<◌, ◌≤◌, ◌^◌, ◌++◌, length, IfOk, OnOk, Some};
ghost use Rattle.line_text.specs.Output.{out_line, out_lines, emit_lines, view_line, view_lines, view_count, one_if};
ghost use Rattle.line_text.specs.Output.{body_hex};
ghost use Rattle.line_text.specs.Output.{output_text as text_of_output};

use far_base::{Body, Memory, Out, Party, Record};
use far_text::{Word, put_hex, put_line};
use packet_codec::encode;
use std::alloc::Global;
use switch_core::Emit;
use switch_staged::StagedSwitch;

/// Appends the line of a packet that leaves with packet `number`.
fn put_out(text: &mut Vec<u8>, number: u64, out: &Out) -> Result<(), Memory>
    ensures { OnOk result (text.new.items ≡ text.old.items ++ out_line number out.now) }
{
    let wire = encode(&out.packet);
    let spelled = Word::Hex(wire.bytes());
    let first = Word::Text(b"out");
    let number = Word::Number(number);
    match out.to {
        Party::Client(client) => put_line(
            text,
            &[
                first,
                number,
                Word::Text(b"client"),
                Word::Number(u64::from(client)),
                spelled,
            ],
        ),
        Party::Switch => put_line(text, &[first, number, Word::Text(b"switch"), spelled]),
        Party::Server(server) => put_line(
            text,
            &[
                first,
                number,
                Word::Text(b"server"),
                Word::Number(u64::from(server)),
                spelled,
            ],
        ),
        Party::Controller => put_line(text, &[first, number, Word::Text(b"controller"), spelled]),
    }
}

fn put_any(text: &mut Vec<u8>, number: u64, out: &Option<Out>) -> Result<(), Memory>
    ensures { OnOk result (text.new.items ≡ text.old.items ++ out_lines number out.now) }
{
    match out {
        Some(out) => put_out(text, number, out),
        None => Ok(()),
    }
}

#[tactic(auto, using(crate::proofs::OutLaws::packet_by_packet))]
fn put_emits(text: &mut Vec<u8>, emits: &[Emit]) -> Result<(), Memory>
    ensures { OnOk result (text.new.items ≡ text.old.items ++ emit_lines 1 emits.now) }
{
    for k in 0..emits.len() {
        let number = k as u64 + 1;
        put_any(text, number, &emits[k].first)?;
        put_any(text, number, &emits[k].second)?;
    }
    Ok(())
}

/// The body as a word: `-` where it is absent, else `=` and the digits of its bytes.
fn body_word(alloc: Global, body: &Body) -> Result<Vec<u8>, Memory>
    ensures { IfOk result (λ word. word.items ≡ body_hex body.now) }
{
    let mut word = Vec::new(alloc);
    if !body.is_present() {
        word.extend_from_slice(b"-")?;
        return Ok(word);
    }
    word.extend_from_slice(b"=")?;
    put_hex(&mut word, body.text())?;
    Ok(word)
}

fn put_record(alloc: Global, text: &mut Vec<u8>, slot: u32, kept: &Record) -> Result<(), Memory>
    ensures { OnOk result (text.new.items ≡ text.old.items ++ view_line slot (Some kept.now)) }
{
    let body = body_word(alloc, &kept.body)?;
    put_line(
        text,
        &[
            Word::Number(u64::from(slot)),
            Word::Key(&kept.key),
            Word::Number(kept.num),
            Word::Text(&body),
        ],
    )
}

/// Appends the line of a slot that shows a record, and answers how many lines these are.
fn put_view(
    alloc: Global,
    text: &mut Vec<u8>,
    slot: u32,
    view: &Option<Record>,
) -> Result<u64, Memory>
    ensures line { OnOk result (text.new.items ≡ text.old.items ++ view_line slot view.now) }
    ensures count { IfOk result (λ count. count ≡ one_if view.now) }
    ensures one { IfOk result (λ count. count ≤ 1) }
{
    match view {
        Some(kept) => {
            put_record(alloc, text, slot, kept)?;
            Ok(1)
        }
        None => Ok(0),
    }
}

/// Appends the lines of the slots that show a record, and answers how many these are.
#[tactic(auto, using(crate::proofs::OutLaws::slot_by_slot))]
fn put_views(alloc: Global, text: &mut Vec<u8>, switch: &StagedSwitch) -> Result<u64, Memory>
    ensures lines { OnOk result (text.new.items ≡ text.old.items ++ view_lines 0 switch.now.slots) }
    ensures count { IfOk result (λ count. count ≡ view_count switch.now.slots) }
{
    let mut count = 0;
    for slot in 0..switch.slots() {
        count += put_view(alloc, text, slot, &switch.view(slot))?;
    }
    Ok(count)
}

/// The text of what left a switch with each of the packets, and of what these have left of it.
pub fn output_text(alloc: Global, emits: &[Emit], switch: &StagedSwitch) -> Result<Vec<u8>, Memory>
    ensures { IfOk result (λ text. text.items ≡ text_of_output emits.now switch.now) }
{
    let mut views = Vec::new(alloc);
    let count = put_views(alloc, &mut views, switch)?;
    let mut text = Vec::new(alloc);
    put_line(&mut text, &[Word::Text(b"far 1 out")])?;
    put_emits(&mut text, emits)?;
    put_line(
        &mut text,
        &[Word::Text(b"counter"), Word::Number(switch.counter())],
    )?;
    put_line(&mut text, &[Word::Text(b"views"), Word::Number(count)])?;
    text.extend_from_slice(&views)?;
    put_line(&mut text, &[Word::Text(b"end")])?;
    Ok(text)
}
