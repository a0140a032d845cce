ghost use Rattle.std.specs.Prelude.{◌≡◌, bytes_eq};
ghost use Rattle.far_text.specs.Options.{Shows};
ghost use Rattle.workload.specs.Words.{number_and_key, put_words, verb_of};
ghost use Rattle.workload.specs.Kinds.{kind_of};
ghost use Rattle.workload.specs.Forms.{stop_of};

use far_base::{Key, Order, PassKind};
use far_text::{body_bytes_of, cut, key_of, number_of};

/// A number, a space and a key.
pub(crate) fn number_and_key(words: &[u8]) -> Option<(u64, Key)>
    ensures { result ≡ number_and_key words.now }
{
    let (number, key) = cut(words, b' ')?;
    Some((number_of(number)?, key_of(key)?))
}

/// A number, a space, a key, a space and a body.
pub(crate) fn put_words(words: &[u8]) -> Option<(u64, Key, &[u8])>
    ensures { Shows (λ x. (x.0, x.1, x.2.now)) result (put_words words.now) }
{
    let (number, rest) = cut(words, b' ')?;
    let number = number_of(number)?;
    let (key, body) = cut(rest, b' ')?;
    Some((number, key_of(key)?, body_bytes_of(body)?))
}

/// The first word of a line after the head.
#[derive(Clone, Copy)]
pub(crate) enum Verb {
    Get,
    Put,
    Del,
    Admit,
    Evict,
    Snap,
    Stop,
    Picks,
    Random,
}

pub(crate) fn is_word(word: &[u8], name: &[u8]) -> bool
    ensures { result ≡ bytes_eq word.now name.now }
{
    word == name
}

/// The kind of packet that the word names.
fn kind_of(word: &[u8]) -> Option<PassKind>
    ensures { result ≡ kind_of word.now }
{
    if is_word(word, b"getreq") {
        Some(PassKind::GetReq)
    } else if is_word(word, b"writereq") {
        Some(PassKind::WriteReq)
    } else if is_word(word, b"getrep") {
        Some(PassKind::GetRep)
    } else if is_word(word, b"writerep") {
        Some(PassKind::WriteRep)
    } else if is_word(word, b"admit") {
        Some(PassKind::Admit)
    } else if is_word(word, b"peek") {
        Some(PassKind::Peek)
    } else if is_word(word, b"remove") {
        Some(PassKind::Remove)
    } else if is_word(word, b"snapstart") {
        Some(PassKind::SnapStart)
    } else if is_word(word, b"snapread") {
        Some(PassKind::SnapRead)
    } else {
        None
    }
}

/// The order to stop the switch: at a step, or at a packet where two words name its kind and count.
pub(crate) fn stop_of(words: &[u8]) -> Option<Order>
    ensures { result ≡ stop_of words.now }
{
    match cut(words, b' ') {
        Some((kind, times)) => Some(Order::StopAt {
            kind: kind_of(kind)?,
            times: number_of(times)?,
        }),
        None => Some(Order::Stop {
            step: number_of(words)?,
        }),
    }
}

impl Verb {
    pub(crate) fn from_word(word: &[u8]) -> Option<Verb>
        ensures { result ≡ verb_of word.now }
    {
        if is_word(word, b"get") {
            Some(Verb::Get)
        } else if is_word(word, b"put") {
            Some(Verb::Put)
        } else if is_word(word, b"del") {
            Some(Verb::Del)
        } else if is_word(word, b"admit") {
            Some(Verb::Admit)
        } else if is_word(word, b"evict") {
            Some(Verb::Evict)
        } else if is_word(word, b"snap") {
            Some(Verb::Snap)
        } else if is_word(word, b"stop") {
            Some(Verb::Stop)
        } else if is_word(word, b"picks") {
            Some(Verb::Picks)
        } else if is_word(word, b"random") {
            Some(Verb::Random)
        } else {
            None
        }
    }
}
