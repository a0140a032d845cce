ghost use Rattle.std.specs.Prelude.{◌≡◌, None, IfSome, IsTrue, IsSome};
ghost use Rattle.far_base.specs.Key.{is_visible, is_key_text};
ghost use Rattle.far_text.specs.Numbers.{is_digit, is_number};
ghost use Rattle.far_text.specs.Options.{Shows};
ghost use Rattle.far_text.specs.Words.{body_bytes_of};
ghost use Rattle.workload_reasons.specs.Spelled.{first_other, first_word, has_front_zero, marked};
ghost use Rattle.workload_reasons.specs.Spelled.{IsNumberFault, IsKeyFault, IsBodyFault};

use crate::reason::{BodyFault, KeyFault, NumberFault};
use far_base::KEY_LENGTH;
use far_text::{NUMBER_DIGITS, cut};

/// The first byte that is no digit.
fn first_no_digit(word: &[u8]) -> Option<u8>
    ensures { result ≡ first_other is_digit word.now }
{
    for byte in word {
        if !byte.is_ascii_digit() {
            return Some(*byte);
        }
    }
    None
}

/// The first byte that is no visible character.
pub(crate) fn first_hidden(word: &[u8]) -> Option<u8>
    ensures { result ≡ first_other is_visible word.now }
{
    for byte in word {
        if !byte.is_ascii_graphic() {
            return Some(*byte);
        }
    }
    None
}

/// What stands before the first space, or all where there is none.
pub(crate) fn first_word(words: &[u8]) -> &[u8]
    ensures { result.now ≡ first_word words.now }
{
    match cut(words, b' ') {
        Some((word, _)) => word,
        None => words,
    }
}

/// Whether the word has a zero in front of other bytes.
fn has_front_zero(word: &[u8]) -> bool
    ensures { result ≡ has_front_zero word.now }
{
    matches!(word, [b'0', _, ..])
}

/// Why the word is no number.
pub(crate) fn number_fault(word: &[u8]) -> Option<NumberFault>
    ensures told { IfSome result (IsNumberFault word.now) }
    ensures none { result ≡ None → IsTrue (is_number word.now) }
{
    if word.is_empty() {
        return Some(NumberFault::Empty);
    }
    if let Some(byte) = first_no_digit(word) {
        return Some(NumberFault::Byte(byte));
    }
    if word.len() > NUMBER_DIGITS {
        return Some(NumberFault::Digits(word.len()));
    }
    if has_front_zero(word) {
        return Some(NumberFault::Zero);
    }
    None
}

/// Why the word is no key.
pub(crate) fn key_fault(word: &[u8]) -> Option<KeyFault>
    ensures told { IfSome result (IsKeyFault word.now) }
    ensures none { result ≡ None → IsTrue (is_key_text word.now) }
{
    if word.is_empty() {
        return Some(KeyFault::Empty);
    }
    if let Some(byte) = first_hidden(word) {
        return Some(KeyFault::Byte(byte));
    }
    if word.len() > KEY_LENGTH {
        return Some(KeyFault::Length(word.len()));
    }
    None
}

/// What stands behind the `=` that the word begins with.
fn marked(word: &[u8]) -> Option<&[u8]>
    ensures { Shows (λ text. text.now) result (marked word.now) }
{
    match word {
        [b'=', text @ ..] => Some(text),
        _ => None,
    }
}

/// Why the word is no body.
pub(crate) fn body_fault(word: &[u8]) -> Option<BodyFault>
    ensures told { IfSome result (IsBodyFault word.now) }
    ensures none { result ≡ None → IsSome (body_bytes_of word.now) }
{
    let Some(text) = marked(word) else {
        return Some(BodyFault::Mark);
    };
    match first_hidden(text) {
        Some(byte) => Some(BodyFault::Byte(byte)),
        None => None,
    }
}
