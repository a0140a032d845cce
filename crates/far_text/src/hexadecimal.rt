ghost use Rattle.std.specs.Prelude.{◌≡◌, ◌++◌, IfOk, OnOk, OnErr, bytes_eq};
ghost use Rattle.hex.specs.Hex.{encode_lower};
ghost use Rattle.far_text.specs.Hex.{hex_of};
ghost use Rattle.far_text.specs.Options.{Shows};

use crate::writer::put_text;
use far_base::Memory;
use hex::FromHexError;
use std::alloc::Global;

/// Whether these digits are the text of these bytes.
fn is_text(alloc: Global, word: &[u8], bytes: &[u8]) -> Result<bool, Memory>
    ensures { IfOk result (λ same. same ≡ bytes_eq (encode_lower bytes.now) word.now) }
{
    let text = hex::encode(alloc, bytes)?;
    Ok(text.as_bytes() == word)
}

/// The bytes whose text the word is: two digits each, with lower-case letters. `None` exactly where it
/// is no such text.
#[tactic(auto, unfolding(crate::specs::Hex::hex_of))]
pub fn hex_of(alloc: Global, word: &[u8]) -> Result<Option<Vec<u8>>, Memory>
    ensures read { IfOk result (λ found. Shows (λ bytes. bytes.items) found (hex_of word.now)) }
{
    let bytes = match hex::decode(alloc, word) {
        Ok(bytes) => bytes,
        Err(FromHexError::OutOfMemory) => return Err(Memory),
        Err(_) => return Ok(None),
    };
    if is_text(alloc, word, &bytes)? {
        Ok(Some(bytes))
    } else {
        Ok(None)
    }
}

/// Appends two digits for each byte, with lower-case letters. At `Memory` nothing was appended.
pub fn put_hex(out: &mut Vec<u8>, bytes: &[u8]) -> Result<(), Memory>
    ensures text { OnOk result (out.new.items ≡ out.old.items ++ encode_lower bytes.now) }
    ensures kept { OnErr result (out.new.items ≡ out.old.items) }
{
    let text = hex::encode(*out.allocator(), bytes)?;
    put_text(out, text.as_bytes())
}
