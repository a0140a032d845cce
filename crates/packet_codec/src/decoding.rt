ghost use Rattle.std.specs.Prelude.{◌≡◌, ◌≢◌, ◌↔◌, ℕ, List, [], ◌++◌, Ok, Err, IfOk, IfErr, OnOk};
ghost use Rattle.packet_codec.specs.Packets.{packet_of};
ghost use Rattle.packet_codec.specs.Spelling.{Spells};
ghost use Rattle.packet_codec.specs.Faults.{HasOtherVersion, HasNoKind, IsLonger};

use crate::by_kind::fields;
use crate::fault::BadPacket;
use crate::reader::Reader;
use crate::wire::VERSION;
use far_base::Packet;

/// Puts the packet that the bytes spell, all of the bytes, where the packet stands. An `Err` is the first fault from
/// left to right; what stands there then may be any packet.
#[tactic(auto, unfolding(crate::specs::Packets::packet_of, crate::specs::Packets::packet_at))]
pub fn decode_into(bytes: &[u8], packet: &mut Packet) -> Result<(), BadPacket>
    ensures read { OnOk result (packet_of bytes.now ≡ Ok packet.new) }
    ensures fault { IfErr result (λ fault. packet_of bytes.now ≡ Err fault) }
{
    let mut reader = Reader { rest: bytes };
    if reader.byte()? != VERSION {
        return Err(BadPacket::Version);
    }
    let kind = reader.byte()?;
    fields(kind, &mut reader, packet)?;
    if !reader.rest.is_empty() {
        return Err(BadPacket::Rest);
    }
    Ok(())
}

fn packet(bytes: &[u8]) -> Result<Packet, BadPacket>
    ensures { result ≡ packet_of bytes.now }
{
    let mut packet = Packet::Stored { job: 0 };
    decode_into(bytes, &mut packet)?;
    Ok(packet)
}

/// The packet that the bytes spell, all of the bytes. An `Err` is the first fault from left to
/// right.
pub fn decode(bytes: &[u8]) -> Result<Packet, BadPacket>
    // What is read is spelled so, and what is spelled so is read.
    ensures found { IfOk result (λ packet. Spells bytes.now packet) }
    ensures only { (packet : Packet) → Spells bytes.now packet → result ≡ Ok packet }

    // Which fault it is.
    ensures exact { result ≡ packet_of bytes.now }
    ensures version { (result ≡ Err BadPacket.Version) ↔ HasOtherVersion bytes.now }
    ensures kind { (result ≡ Err BadPacket.Kind) ↔ HasNoKind bytes.now }
    ensures rest { (result ≡ Err BadPacket.Rest) ↔ IsLonger bytes.now }
    ensures cut { (after : List ℕ) (p : Packet) → after ≢ [] → Spells (bytes.now ++ after) p
        → result ≡ Err BadPacket.Short }
{
    packet(bytes)
}
