ghost use Rattle.std.specs.Prelude.{◌≡◌, ◌≤◌, ◌+◌, ◌<◌, ◌∷◌, length, ℕ, List, Option, IfSome, IsTrue, Some};
ghost use Rattle.std.specs.List.{list_all};
ghost use Rattle.std.specs.Fmt.{decimal};
ghost use Rattle.far_base.specs.Key.{is_visible, key_text};
ghost use Rattle.far_text.specs.Options.{Shows};
ghost use Rattle.far_text.specs.Pieces.{until, cut_at};
ghost use Rattle.far_text.specs.Numbers.{is_digit, is_number, value_from, number_of, IsNumber};
ghost use Rattle.far_text.specs.Text.{body_word};
ghost use Rattle.far_text.specs.Words.{key_of, IsKey, body_bytes_of, body_of, IsVisible, IsBody};

use far_base::{Body, Key};

/// The greatest number of digits of a number.
pub const NUMBER_DIGITS: usize = 19;

/// The greatest number that a text can name.
pub const NUMBER_LIMIT: u64 = 9_999_999_999_999_999_999;

fn until(bytes: &[u8], mark: u8) -> usize
    ensures count { result ≡ until mark bytes.now }
    ensures bound { result ≤ length bytes.now }
{
    let mut at = 0;
    while at < bytes.len() && bytes[at] != mark {
        at += 1;
    }
    at
}

/// What stands before the first byte `mark`, and what stands behind it. `None` exactly where there is
/// no such byte.
pub fn cut(bytes: &[u8], mark: u8) -> Option<(&[u8], &[u8])>
    ensures parts { Shows (λ x. (x.0.now, x.1.now)) result (cut_at mark bytes.now) }
    ensures shorter { IfSome result (λ x. length x.1.now < length bytes.now) }
{
    let (front, rest) = bytes.split_at(until(bytes, mark));
    match rest {
        [_, behind @ ..] => Some((front, behind)),
        [] => None,
    }
}

fn are_digits(word: &[u8]) -> bool
    ensures { result ≡ list_all is_digit word.now }
{
    word.iter().all(|byte| byte.is_ascii_digit())
}

fn is_number(word: &[u8]) -> bool
    ensures { result ≡ is_number word.now }
{
    1 <= word.len()
        && word.len() <= NUMBER_DIGITS
        && (word.len() == 1 || word[0] != b'0')
        && are_digits(word)
}

fn value(word: &[u8]) -> u64
    requires { IsTrue (is_number word.now) }
    ensures { result ≡ value_from 0 word.now }
{
    let mut total = 0;
    for byte in word {
        total = total * 10 + u64::from(*byte - b'0');
    }
    total
}

fn read_number(word: &[u8]) -> Option<u64>
    ensures { result ≡ number_of word.now }
{
    if !is_number(word) {
        return None;
    }
    Some(value(word))
}

/// The number that the word spells. `None` exactly where it is not one to nineteen digits, or has a
/// zero in front of others.
pub fn number_of(word: &[u8]) -> Option<u64>
    ensures read { result ≡ number_of word.now }
    // What is read is spelled so.
    ensures found { IfSome result (λ n. (word.now ≡ decimal n) × IsNumber n) }
    // The digits of a number are read as it.
    ensures only { (n : ℕ) → IsNumber n → word.now ≡ decimal n → result ≡ Some n }
{
    read_number(word)
}

fn read_key(word: &[u8]) -> Option<Key>
    ensures { result ≡ key_of word.now }
{
    Key::from_text(word)
}

/// The key whose text the word is. `None` exactly where it is not one to sixteen visible bytes.
pub fn key_of(word: &[u8]) -> Option<Key>
    ensures read { result ≡ key_of word.now }
    // What is read is spelled so.
    ensures found { IfSome result (λ key. (word.now ≡ key_text key) × IsKey key) }
    // The text of a key is read as it.
    ensures only { (key : List ℕ) → IsKey key → word.now ≡ key_text key → result ≡ Some key }
{
    read_key(word)
}

fn are_visible(bytes: &[u8]) -> bool
    ensures { result ≡ list_all is_visible bytes.now }
{
    bytes.iter().all(|byte| byte.is_ascii_graphic())
}

/// The bytes of a body that is there, of any length: those behind `=`. `None` exactly where the word
/// does not begin with `=`, or has a byte behind it that is not visible.
pub fn body_bytes_of(word: &[u8]) -> Option<&[u8]>
    ensures read { Shows (λ text. text.now) result (body_bytes_of word.now) }
    // What is read is spelled so.
    ensures found { IfSome result (λ text. (word.now ≡ body_word (Some text.now)) × IsVisible text.now) }
{
    match word {
        [b'=', text @ ..] if are_visible(text) => Some(text),
        _ => None,
    }
}

fn read_body(word: &[u8]) -> Option<Body>
    ensures { result ≡ body_of word.now }
{
    if word == b"-".as_slice() {
        return Some(Body::absent());
    }
    Body::from_bytes(body_bytes_of(word)?)
}

/// The body that the word spells. `None` exactly where it is neither `-` nor `=` with at most
/// `BODY_LIMIT` visible bytes behind it.
pub fn body_of(word: &[u8]) -> Option<Body>
    ensures read { result ≡ body_of word.now }
    // What is read is spelled so.
    ensures found { IfSome result (λ body. (word.now ≡ body_word body) × IsBody body) }
    // The word of a body is read as it.
    ensures only { (body : Option (List ℕ)) → IsBody body → word.now ≡ body_word body → result ≡ Some body }
{
    read_body(word)
}
