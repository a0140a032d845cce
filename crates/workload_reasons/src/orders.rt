ghost use Rattle.std.specs.Prelude.{◌≡◌, None, IfSome, IsSome, bytes_eq, is_some};
ghost use Rattle.far_text.specs.Numbers.{number_of};
ghost use Rattle.far_text.specs.Options.{Shows};
ghost use Rattle.far_text.specs.Pieces.{cut_at, pieces};
ghost use Rattle.workload.specs.Forms.{stop_of};
ghost use Rattle.workload.specs.Kinds.{kind_of};
ghost use Rattle.workload.specs.Words.{number_and_key, numbers_of, put_words};
ghost use Rattle.workload_reasons.specs.Orders.{IsLoneFault, IsKeyedFault, IsPairFault, IsPutFault, IsStopFault};
ghost use Rattle.workload_reasons.specs.Orders.{IsPicksFault, IsWordFault, IsFormFault, Fits, HasForm, verb_of};
ghost use Rattle.workload_reasons.specs.Orders.{client_of};
ghost use Rattle.workload_reasons.specs.Orders.{first_no_number, key_and_body};
ghost use Rattle.workload_reasons.specs.Spelled.{first_word};

use crate::reason::{FormFault, NumberName, WordFault};
use crate::spelled::{body_fault, first_hidden, first_word, key_fault, number_fault};
use far_text::{cut, number_of};

/// The first word of a line behind the head.
#[derive(Clone, Copy)]
pub enum Verb {
    Get,
    Put,
    Del,
    Admit,
    Evict,
    Snap,
    Stop,
    Picks,
    Random,
}

fn is_word(word: &[u8], name: &[u8]) -> bool
    ensures { result ≡ bytes_eq word.now name.now }
{
    word == name
}

/// The order that the word names.
pub(crate) fn verb_of(word: &[u8]) -> Option<Verb>
    ensures { result ≡ verb_of word.now }
{
    if is_word(word, b"get") {
        Some(Verb::Get)
    } else if is_word(word, b"put") {
        Some(Verb::Put)
    } else if is_word(word, b"del") {
        Some(Verb::Del)
    } else if is_word(word, b"admit") {
        Some(Verb::Admit)
    } else if is_word(word, b"evict") {
        Some(Verb::Evict)
    } else if is_word(word, b"snap") {
        Some(Verb::Snap)
    } else if is_word(word, b"stop") {
        Some(Verb::Stop)
    } else if is_word(word, b"picks") {
        Some(Verb::Picks)
    } else if is_word(word, b"random") {
        Some(Verb::Random)
    } else {
        None
    }
}

/// Whether the word names a kind of packet.
fn is_kind(word: &[u8]) -> bool
    ensures { result ≡ is_some (kind_of word.now) }
{
    is_word(word, b"getreq")
        || is_word(word, b"writereq")
        || is_word(word, b"getrep")
        || is_word(word, b"writerep")
        || is_word(word, b"admit")
        || is_word(word, b"peek")
        || is_word(word, b"remove")
        || is_word(word, b"snapstart")
        || is_word(word, b"snapread")
}

/// Why the words are no number, a space and a key.
fn keyed_fault(name: NumberName, words: &[u8]) -> Option<WordFault>
    ensures told { IfSome result (IsKeyedFault name words.now) }
    ensures none { result ≡ None → IsSome (number_and_key words.now) }
{
    let Some((number, key)) = cut(words, b' ') else {
        return Some(WordFault::NoKey);
    };
    if let Some(fault) = number_fault(number) {
        return Some(WordFault::Number(name, fault));
    }
    Some(WordFault::Key(key_fault(key)?))
}

/// Why the words are no key, a space and a body.
fn pair_fault(words: &[u8]) -> Option<WordFault>
    ensures told { IfSome result (IsPairFault words.now) }
    ensures none { result ≡ None → IsSome (key_and_body words.now) }
{
    let Some((key, body)) = cut(words, b' ') else {
        return Some(WordFault::NoBody);
    };
    if let Some(fault) = key_fault(key) {
        return Some(WordFault::Key(fault));
    }
    Some(WordFault::Body(body_fault(body)?))
}

/// Why the words are no number, a space, a key, a space and a body.
fn put_fault(words: &[u8]) -> Option<WordFault>
    ensures told { IfSome result (IsPutFault words.now) }
    ensures none { result ≡ None → IsSome (put_words words.now) }
{
    let Some((number, rest)) = cut(words, b' ') else {
        return Some(WordFault::NoKey);
    };
    if let Some(fault) = number_fault(number) {
        return Some(WordFault::Number(NumberName::Client, fault));
    }
    pair_fault(rest)
}

/// Why the words are no number alone.
fn lone_fault(name: NumberName, words: &[u8]) -> Option<WordFault>
    ensures told { IfSome result (IsLoneFault name words.now) }
    ensures none { result ≡ None → IsSome (number_of words.now) }
{
    Some(WordFault::Number(name, number_fault(words)?))
}

/// Why the words are neither a step nor a kind of packet, a space and a number.
fn stop_fault(words: &[u8]) -> Option<WordFault>
    ensures told { IfSome result (IsStopFault words.now) }
    ensures none { result ≡ None → IsSome (stop_of words.now) }
{
    let Some((kind, times)) = cut(words, b' ') else {
        if is_kind(words) {
            return Some(WordFault::NoCount);
        }
        return lone_fault(NumberName::Step, words);
    };
    if !is_kind(kind) {
        return Some(WordFault::Kind);
    }
    lone_fault(NumberName::Count, times)
}

/// The first of the words that is no number.
#[tactic(auto, using(crate::proofs::Picking::word_by_word))]
fn first_no_pick(words: &[u8]) -> Option<&[u8]>
    ensures { Shows (λ word. word.now) result (first_no_number (pieces 32 words.now)) }
{
    let mut rest = words;
    while let Some((word, behind)) = cut(rest, b' ') {
        if number_of(word).is_none() {
            return Some(word);
        }
        rest = behind;
    }
    if number_of(rest).is_none() {
        Some(rest)
    } else {
        None
    }
}

/// Why the words are not all numbers.
fn picks_fault(words: &[u8]) -> Option<WordFault>
    ensures told { IfSome result (IsPicksFault words.now) }
    ensures none { result ≡ None → IsSome (numbers_of (pieces 32 words.now)) }
{
    lone_fault(NumberName::Pick, first_no_pick(words)?)
}

/// Why the words do not go with the order before them.
fn words_fault(verb: Verb, words: &[u8]) -> Option<WordFault>
    ensures told { IfSome result (IsWordFault verb words.now) }
    ensures none { result ≡ None → Fits verb words.now }
{
    match verb {
        Verb::Get | Verb::Del => keyed_fault(NumberName::Client, words),
        Verb::Put => put_fault(words),
        Verb::Admit | Verb::Evict => keyed_fault(NumberName::Step, words),
        Verb::Snap => lone_fault(NumberName::Step, words),
        Verb::Stop => stop_fault(words),
        Verb::Picks => picks_fault(words),
        Verb::Random => lone_fault(NumberName::Start, words),
    }
}

/// Why the first word is no order.
fn no_order(line: &[u8], word: &[u8]) -> FormFault
    requires first { word.now ≡ first_word line.now }
    requires none { verb_of word.now ≡ None }
    ensures { IsFormFault line.now result }
{
    match first_hidden(word) {
        Some(byte) => FormFault::OrderByte(byte),
        None => FormFault::Order,
    }
}

/// Why a line without a space is no order.
fn single_fault(line: &[u8]) -> FormFault
    requires { cut_at 32 line.now ≡ None }
    ensures { IsFormFault line.now result }
{
    if line.is_empty() {
        return FormFault::Empty;
    }
    match verb_of(line) {
        Some(verb) => FormFault::Alone(verb),
        None => no_order(line, line),
    }
}

/// Why the line has none of the forms that stand behind the head.
pub(crate) fn form_fault(line: &[u8]) -> Option<FormFault>
    ensures told { IfSome result (IsFormFault line.now) }
    ensures none { result ≡ None → HasForm line.now }
{
    let Some((word, words)) = cut(line, b' ') else {
        return Some(single_fault(line));
    };
    match verb_of(word) {
        Some(verb) => Some(FormFault::Words(verb, words_fault(verb, words)?)),
        None => Some(no_order(line, word)),
    }
}

/// The client of the operation that the line is.
pub(crate) fn client_of(line: &[u8]) -> Option<u64>
    ensures { result ≡ client_of line.now }
{
    let (word, words) = cut(line, b' ')?;
    match verb_of(word)? {
        Verb::Get | Verb::Put | Verb::Del => number_of(first_word(words)),
        Verb::Admit | Verb::Evict | Verb::Snap | Verb::Stop | Verb::Picks | Verb::Random => None,
    }
}
