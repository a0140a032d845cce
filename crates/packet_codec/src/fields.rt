ghost use Rattle.std.specs.Prelude.{◌≡◌, ◌≤◌, ℕ, List, Option, length, drop, IfOk, IfErr};
ghost use Rattle.far_base.specs.declared.record.Record.{Record};
ghost use Rattle.packet_codec.specs.Reading.{begins_at, key_at, body_at, rec_at, IsFieldFault};
ghost use Rattle.packet_codec.specs.Spelling.{Stands, key_part, body_part, rec_part};

use crate::fault::BadPacket;
use crate::reader::Reader;
use far_base::{Body, Key, Record};

fn after(bytes: &[u8], at: u32) -> &[u8]
    ensures { result.now ≡ drop at bytes.now }
{
    let start = (at as usize).min(bytes.len());
    &bytes[start..]
}

/// The key that begins at byte `at`, whatever follows it. An `Err` is `Short` where the sixteen
/// bytes are not all there, also past the end, and else `Pad`.
pub fn read_key(bytes: &[u8], at: u32) -> Result<Key, BadPacket>
    ensures found { IfOk result (λ key. Stands bytes.now at (key_part key)) }
    ensures only { (key : List ℕ) → Stands bytes.now at (key_part key) → result ≡ Ok key }
    ensures exact { result ≡ begins_at key_at at bytes.now }
    ensures fault { IfErr result IsFieldFault }
    ensures past { length bytes.now ≤ at → result ≡ Err BadPacket.Short }
{
    let mut reader = Reader {
        rest: after(bytes, at),
    };
    reader.key()
}

/// The body that begins at byte `at`, whatever follows it. An `Err` is the first fault of its flag,
/// its length and its bytes; past the end it is `Short`.
pub fn read_body(bytes: &[u8], at: u32) -> Result<Body, BadPacket>
    ensures found { IfOk result (λ body. Stands bytes.now at (body_part body)) }
    ensures only { (body : Option (List ℕ)) → Stands bytes.now at (body_part body) → result ≡ Ok body }
    ensures exact { result ≡ begins_at body_at at bytes.now }
    ensures fault { IfErr result IsFieldFault }
    ensures past { length bytes.now ≤ at → result ≡ Err BadPacket.Short }
{
    let mut reader = Reader {
        rest: after(bytes, at),
    };
    reader.body()
}

/// The record that begins at byte `at`, whatever follows it. An `Err` is the first fault of its
/// key, its number and its body; past the end it is `Short`.
pub fn read_rec(bytes: &[u8], at: u32) -> Result<Record, BadPacket>
    ensures found { IfOk result (λ rec. Stands bytes.now at (rec_part rec)) }
    ensures only { (rec : Record) → Stands bytes.now at (rec_part rec) → result ≡ Ok rec }
    ensures exact { result ≡ begins_at rec_at at bytes.now }
    ensures fault { IfErr result IsFieldFault }
    ensures past { length bytes.now ≤ at → result ≡ Err BadPacket.Short }
{
    let mut reader = Reader {
        rest: after(bytes, at),
    };
    reader.rec()
}
