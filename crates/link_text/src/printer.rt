ghost use Rattle.std.specs.Prelude.{◌≡◌, ◌++◌, IfOk, OnOk};
ghost use Rattle.link_text.specs.Transcript.{outcome_line, outcome_lines, transcript_text};
ghost use Rattle.retry_link.specs.Link.{AreLinkEvents, opening_link, outcomes, run_link};
ghost use Rattle.far_text.specs.Text.{text_line};
ghost use Rattle.hex.specs.Hex.{encode_lower};
ghost use Rattle.std.specs.Prelude.{◌∷◌, [], codes, decimal};

use crate::script::Script;
use far_base::Memory;
use far_text::{Word, put_line};
use packet_codec::Wire;
use retry_link::{Link, LinkEvent, LinkOutcome, links_may_go_on};
use std::alloc::Global;

fn put_word_line(out: &mut Vec<u8>, word: &[u8]) -> Result<(), Memory>
    ensures { OnOk result (out.new.items ≡ out.old.items ++ text_line (word.now ∷ [])) }
{
    put_line(out, &[Word::Text(word)])
}

fn put_number_line(out: &mut Vec<u8>, word: &[u8], number: u64) -> Result<(), Memory>
    ensures { OnOk result (out.new.items ≡ out.old.items ++ text_line (word.now ∷ decimal number ∷ [])) }
{
    put_line(out, &[Word::Text(word), Word::Number(number)])
}

fn put_up(out: &mut Vec<u8>, num: u64, wire: &Wire, frame: u64) -> Result<(), Memory>
    ensures { OnOk result (out.new.items ≡ out.old.items ++ text_line (codes "up" ∷ decimal num ∷ encode_lower wire.now
        ∷ decimal frame ∷ [])) }
{
    put_line(
        out,
        &[
            Word::Text(b"up"),
            Word::Number(num),
            Word::Hex(wire.bytes()),
            Word::Number(frame),
        ],
    )
}

fn put_seen(out: &mut Vec<u8>, num: u64, frame: u64) -> Result<(), Memory>
    ensures { OnOk result (out.new.items ≡ out.old.items ++ text_line (codes "seen" ∷ decimal num ∷ decimal frame
        ∷ [])) }
{
    put_line(
        out,
        &[Word::Text(b"seen"), Word::Number(num), Word::Number(frame)],
    )
}

fn put_outcome(out: &mut Vec<u8>, told: &LinkOutcome) -> Result<(), Memory>
    ensures { OnOk result (out.new.items ≡ out.old.items ++ outcome_line told.now) }
{
    match told {
        LinkOutcome::Sent(frame) => put_number_line(out, b"sent", *frame),
        LinkOutcome::Full => put_word_line(out, b"full"),
        LinkOutcome::Nothing => put_word_line(out, b"nothing"),
        LinkOutcome::Up(num, wire, frame) => put_up(out, *num, wire, *frame),
        LinkOutcome::Seen(num, frame) => put_seen(out, *num, *frame),
        LinkOutcome::Acked(num) => put_number_line(out, b"ack", *num),
    }
}

/// Makes the events happen, one after the other, and writes a line for each.
fn put_outcomes(out: &mut Vec<u8>, link: &mut Link, events: &[LinkEvent]) -> Result<(), Memory>
    requires events { AreLinkEvents events.now }
    requires opening { link.old ≡ opening_link }
    ensures told { OnOk result (out.new.items ≡ out.old.items ++ outcome_lines (outcomes opening_link events.now)) }
    ensures link { OnOk result (link.new ≡ run_link opening_link events.now) }
{
    links_may_go_on();
    for event in events {
        let told = link.step(event)?;
        put_outcome(out, &told)?;
    }
    Ok(())
}

/// What the events tell from the opening on: a line for each, and how many messages are not acknowledged in the end.
pub fn transcript(alloc: Global, script: &Script) -> Result<Vec<u8>, Memory>
    requires { AreLinkEvents script.now }
    ensures { IfOk result (λ text. text.items ≡ transcript_text script.now) }
{
    let mut out = Vec::new(alloc);
    put_word_line(&mut out, b"far 1 link out")?;
    let mut link = Link::new(alloc)?;
    put_outcomes(&mut out, &mut link, &script.events)?;
    put_number_line(&mut out, b"unacked", u64::from(link.unacked()))?;
    put_word_line(&mut out, b"end")?;
    Ok(out)
}
