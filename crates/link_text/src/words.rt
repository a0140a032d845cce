ghost use Rattle.std.specs.Prelude.{◌≡◌, ℕ, List, bytes_eq, IfOk, IfSome, Some};
ghost use Rattle.link_text.specs.Words.{event_by, event_of, offer_of};
ghost use Rattle.retry_link.specs.Link.{OffersMessage};
ghost use Rattle.retry_link.specs.declared.link.LinkEvent.{LinkEvent as Event};

use far_base::Memory;
use far_text::{cut, hex_of, number_of};
use packet_codec::{decode, encode};
use retry_link::LinkEvent;
use std::alloc::Global;

pub(crate) fn is_word(word: &[u8], name: &[u8]) -> bool
    ensures { result ≡ bytes_eq word.now name.now }
{
    word == name
}

/// The offer of the packet of whose bytes the word is the text.
fn offer_of(alloc: Global, word: &[u8]) -> Result<Option<LinkEvent>, Memory>
    ensures offer { IfOk result (λ found. found ≡ offer_of word.now) }
    ensures message { IfOk result (λ found. IfSome found OffersMessage) }
{
    let Some(bytes) = hex_of(alloc, word)? else {
        return Ok(None);
    };
    match decode(&bytes) {
        Ok(packet) => Ok(Some(LinkEvent::Offer(encode(&packet)))),
        Err(_) => Ok(None),
    }
}

fn event_by(alloc: Global, word: &[u8], rest: &[u8]) -> Result<Option<LinkEvent>, Memory>
    ensures event { IfOk result (λ found. found ≡ event_by word.now rest.now) }
    ensures message { IfOk result (λ found. IfSome found OffersMessage) }
{
    if is_word(word, b"offer") {
        offer_of(alloc, rest)
    } else if is_word(word, b"again") {
        Ok(number_of(rest).map(LinkEvent::Again))
    } else if is_word(word, b"carry") {
        Ok(number_of(rest).map(LinkEvent::Carry))
    } else {
        Ok(None)
    }
}

/// The event that the line tells. `None` exactly where the line is that of no event.
#[tactic(auto, unfolding(crate::specs::Words::event_of))]
pub(crate) fn event_of(alloc: Global, line: &[u8]) -> Result<Option<LinkEvent>, Memory>
    ensures event { IfOk result (λ found. found ≡ event_of line.now) }
    ensures message { IfOk result (λ found. IfSome found OffersMessage) }
{
    match cut(line, b' ') {
        Some((word, rest)) => event_by(alloc, word, rest),
        None => Ok(None),
    }
}
