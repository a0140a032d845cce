ghost use Rattle.std.specs.Prelude.{◌≡◌, [], ◌++◌, ◌∷◌, ◌≤◌, map, length, take, OnOk, OnErr};
ghost use Rattle.std.specs.Fmt.{decimal};
ghost use Rattle.far_base.specs.Key.{key_text};
ghost use Rattle.far_base.specs.Padded.{length_of};
ghost use Rattle.far_base.specs.declared.body.TheConstants.{BODY_LIMIT};
ghost use Rattle.far_text.specs.Text.{body_word, after_words, text_line};
ghost use Rattle.far_text.specs.Spelled.{word_text};
ghost use Rattle.far_text.specs.Words.{IsKey};

use crate::hexadecimal::put_hex;
use far_base::{Body, Key, Memory};
use itoa::Buffer;

/// The byte between two words of a line.
pub const SPACE: u8 = b' ';

/// The byte at the end of a line.
pub const LINE_END: u8 = b'\n';

/// A word of a line that is written.
#[derive(Clone, Copy)]
pub enum Word<'a> {
    /// These bytes.
    Text(&'a [u8]),
    /// The digits of the number.
    Number(u64),
    /// The text of the key.
    Key(&'a Key),
    /// `=` and the bytes of the body, or `-` where it is absent.
    Body(&'a Body),
    /// Two hexadecimal digits for each of these bytes, with lower-case letters.
    Hex(&'a [u8]),
}

/// Appends the bytes. At `Memory` nothing was appended.
pub fn put_text(out: &mut Vec<u8>, text: &[u8]) -> Result<(), Memory>
    ensures text { OnOk result (out.new.items ≡ out.old.items ++ text.now) }
    ensures kept { OnErr result (out.new.items ≡ out.old.items) }
{
    out.extend_from_slice(text)?;
    Ok(())
}

/// Appends the byte. At `Memory` nothing was appended.
fn put_byte(out: &mut Vec<u8>, byte: u8) -> Result<(), Memory>
    ensures text { OnOk result (out.new.items ≡ out.old.items ++ byte ∷ []) }
    ensures kept { OnErr result (out.new.items ≡ out.old.items) }
{
    out.push(byte).map_err(|_| Memory)
}

/// Appends the digits of the number. At `Memory` nothing was appended.
pub fn put_number(out: &mut Vec<u8>, number: u64) -> Result<(), Memory>
    ensures text { OnOk result (out.new.items ≡ out.old.items ++ decimal number) }
    ensures kept { OnErr result (out.new.items ≡ out.old.items) }
{
    let mut buffer = Buffer::new();
    put_text(out, buffer.format(number).as_bytes())
}

/// Appends the text of the key. At `Memory` nothing was appended.
pub fn put_key(out: &mut Vec<u8>, key: &Key) -> Result<(), Memory>
    ensures text { OnOk result (out.new.items ≡ out.old.items ++ key_text key.now) }
    ensures kept { OnErr result (out.new.items ≡ out.old.items) }
    ensures key { IsKey key.now }
{
    // The bytes of a key tell that they are one.
    let _bytes = key.bytes();
    put_text(out, key.text())
}

/// Takes away what stands behind the front of so many bytes where memory was refused.
fn or_front(out: &mut Vec<u8>, end: usize, written: Result<(), Memory>) -> Result<(), Memory>
    ensures same { result ≡ written }
    ensures ok { OnOk result (out.new.items ≡ out.old.items) }
    ensures err { OnErr result (out.new.items ≡ take end out.old.items) }
{
    if written.is_err() {
        out.truncate(end);
    }
    written
}

fn append_body(out: &mut Vec<u8>, body: &Body) -> Result<(), Memory>
    ensures text { OnOk result (out.new.items ≡ out.old.items ++ body_word body.now) }
    ensures front { take (length out.old.items) out.new.items ≡ out.old.items }
    ensures short { length_of body.now ≤ BODY_LIMIT }
{
    let text = body.text();
    if !body.is_present() {
        return put_byte(out, b'-');
    }
    put_byte(out, b'=')?;
    put_text(out, text)
}

/// Appends `=` and the bytes of the body, or `-` where it is absent. At `Memory` nothing was appended.
pub fn put_body(out: &mut Vec<u8>, body: &Body) -> Result<(), Memory>
    ensures text { OnOk result (out.new.items ≡ out.old.items ++ body_word body.now) }
    ensures kept { OnErr result (out.new.items ≡ out.old.items) }
    ensures short { length_of body.now ≤ BODY_LIMIT }
{
    let end = out.len();
    let written = append_body(out, body);
    or_front(out, end, written)
}

/// Appends the word. At `Memory` nothing was appended.
pub fn put_word(out: &mut Vec<u8>, word: &Word) -> Result<(), Memory>
    ensures text { OnOk result (out.new.items ≡ out.old.items ++ word_text word.now) }
    ensures kept { OnErr result (out.new.items ≡ out.old.items) }
{
    match word {
        Word::Text(text) => put_text(out, text),
        Word::Number(number) => put_number(out, *number),
        Word::Key(key) => put_key(out, key),
        Word::Body(body) => put_body(out, body),
        Word::Hex(bytes) => put_hex(out, bytes),
    }
}

fn append_spaced(out: &mut Vec<u8>, word: &Word) -> Result<(), Memory>
    ensures text { OnOk result (out.new.items ≡ out.old.items ++ SPACE ∷ word_text word.now) }
    ensures front { take (length out.old.items) out.new.items ≡ out.old.items }
{
    put_byte(out, SPACE)?;
    put_word(out, word)
}

#[tactic(auto, using(crate::proofs::Fronts::front_more))]
fn append_after(out: &mut Vec<u8>, words: &[Word]) -> Result<(), Memory>
    ensures text { OnOk result (out.new.items ≡ out.old.items ++ after_words (map word_text words.now)) }
    ensures front { take (length out.old.items) out.new.items ≡ out.old.items }
{
    for word in words {
        append_spaced(out, word)?;
    }
    put_byte(out, LINE_END)
}

#[tactic(auto, using(crate::proofs::Fronts::front_more))]
fn append_line(out: &mut Vec<u8>, words: &[Word]) -> Result<(), Memory>
    ensures text { OnOk result (out.new.items ≡ out.old.items ++ text_line (map word_text words.now)) }
    ensures front { take (length out.old.items) out.new.items ≡ out.old.items }
{
    match words {
        [] => put_byte(out, LINE_END),
        [first, others @ ..] => {
            put_word(out, first)?;
            append_after(out, others)
        }
    }
}

/// Appends a line of the words, with one space between two. At `Memory` nothing was appended.
pub fn put_line(out: &mut Vec<u8>, words: &[Word]) -> Result<(), Memory>
    ensures text { OnOk result (out.new.items ≡ out.old.items ++ text_line (map word_text words.now)) }
    ensures kept { OnErr result (out.new.items ≡ out.old.items) }
{
    let end = out.len();
    let written = append_line(out, words);
    or_front(out, end, written)
}
