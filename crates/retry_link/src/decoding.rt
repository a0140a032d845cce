ghost use Rattle.std.specs.Prelude.{◌≡◌, ◌≢◌, ◌≤◌, ◌↔◌, ◌++◌, [], ℕ, List, Ok, Err, IfOk, IfErr};
ghost use Rattle.packet_codec.specs.Reading.{Reads, byte_at, taken_at, u16_at, u64_at};
ghost use Rattle.packet_codec.specs.declared.wire.TheConstants.{WIRE_SIZE};
ghost use Rattle.retry_link.specs.Frames.{SpellsFrame};
ghost use Rattle.retry_link.specs.FrameReading.{ack_at, data_at, fields_at, frame_of, message_at};
ghost use Rattle.retry_link.specs.FrameFaults.{HasNoFrameKind, IsFrameFault, IsLongerFrame};

use crate::frame::{ACK, DATA, Frame};
use packet_codec::{BadPacket, WIRE_SIZE, Wire};

/// The bytes that are left. Each method reads the field at their front, and on `Ok` moves past it.
#[derive(Drop)]
struct Reader<'a> {
    rest: &'a [u8],
}

impl<'a> Reader<'a> {
    fn array<const N: usize>(&mut self) -> Result<[u8; N], BadPacket>
        ensures { Reads result self.new.rest.now (taken_at N self.old.rest.now) }
    {
        let (front, rest) = self.rest.split_first_chunk::<N>().ok_or(BadPacket::Short)?;
        self.rest = rest;
        Ok(*front)
    }

    fn byte(&mut self) -> Result<u8, BadPacket>
        ensures { Reads result self.new.rest.now (byte_at self.old.rest.now) }
    {
        let [first, rest @ ..] = self.rest else {
            return Err(BadPacket::Short);
        };
        self.rest = rest;
        Ok(*first)
    }

    #[tactic(auto, unfolding(packet_codec::specs::Reading::u16_at))]
    fn u16(&mut self) -> Result<u16, BadPacket>
        ensures { Reads result self.new.rest.now (u16_at self.old.rest.now) }
    {
        Ok(u16::from_be_bytes(self.array()?))
    }

    #[tactic(auto, unfolding(packet_codec::specs::Reading::u64_at))]
    fn u64(&mut self) -> Result<u64, BadPacket>
        ensures { Reads result self.new.rest.now (u64_at self.old.rest.now) }
    {
        Ok(u64::from_be_bytes(self.array()?))
    }

    fn bytes(&mut self, len: u16) -> Result<Wire, BadPacket>
        requires { len ≤ WIRE_SIZE }
        ensures { Reads result self.new.rest.now (taken_at len self.old.rest.now) }
    {
        let len = len as usize;
        if self.rest.len() < len {
            return Err(BadPacket::Short);
        }
        let (bytes, rest) = self.rest.split_at(len);
        self.rest = rest;
        match Wire::from_bytes(bytes) {
            Some(wire) => Ok(wire),
            None => unreachable!(),
        }
    }

    /// A length and so many bytes; the length is checked before the bytes are read.
    #[tactic(auto, unfolding(crate::specs::FrameReading::message_at))]
    fn message(&mut self) -> Result<Wire, BadPacket>
        ensures { Reads result self.new.rest.now (message_at self.old.rest.now) }
    {
        let len = self.u16()?;
        if len < 1 || WIRE_SIZE < len as usize {
            return Err(BadPacket::Length);
        }
        self.bytes(len)
    }

    #[tactic(auto, unfolding(crate::specs::FrameReading::data_at))]
    fn data_frame(&mut self) -> Result<Frame, BadPacket>
        ensures { Reads result self.new.rest.now (data_at self.old.rest.now) }
    {
        Ok(Frame::Data {
            num: self.u64()?,
            wire: self.message()?,
        })
    }

    #[tactic(auto, unfolding(crate::specs::FrameReading::ack_at))]
    fn ack_frame(&mut self) -> Result<Frame, BadPacket>
        ensures { Reads result self.new.rest.now (ack_at self.old.rest.now) }
    {
        Ok(Frame::Ack { num: self.u64()? })
    }

    #[tactic(auto, unfolding(crate::specs::FrameReading::fields_at))]
    fn fields(&mut self, kind: u8) -> Result<Frame, BadPacket>
        ensures { Reads result self.new.rest.now (fields_at kind self.old.rest.now) }
    {
        match kind {
            DATA => self.data_frame(),
            ACK => self.ack_frame(),
            _ => Err(BadPacket::Kind),
        }
    }
}

#[tactic(auto, unfolding(crate::specs::FrameReading::frame_of, crate::specs::FrameReading::frame_at))]
fn read_frame(bytes: &[u8]) -> Result<Frame, BadPacket>
    ensures { result ≡ frame_of bytes.now }
{
    let mut reader = Reader { rest: bytes };
    let kind = reader.byte()?;
    let frame = reader.fields(kind)?;
    if !reader.rest.is_empty() {
        return Err(BadPacket::Rest);
    }
    Ok(frame)
}

/// The frame that the bytes spell, all of the bytes. An `Err` is the first fault from left to right: `Short` where a
/// field is not wholly there, `Kind` where the first byte is that of no frame, `Length` where a message has no bytes or
/// more than `WIRE_SIZE`, and `Rest` where bytes follow.
pub fn decode_frame(bytes: &[u8]) -> Result<Frame, BadPacket>
    // What is read is spelled so, and what is spelled so is read.
    ensures found { IfOk result (λ frame. SpellsFrame bytes.now frame) }
    ensures only { (frame : Frame) → SpellsFrame bytes.now frame → result ≡ Ok frame }

    // Which fault it is.
    ensures exact { result ≡ frame_of bytes.now }
    ensures fault { IfErr result IsFrameFault }
    ensures kind { (result ≡ Err BadPacket.Kind) ↔ HasNoFrameKind bytes.now }
    ensures rest { (result ≡ Err BadPacket.Rest) ↔ IsLongerFrame bytes.now }
    ensures cut { (after : List ℕ) (frame : Frame) → after ≢ [] → SpellsFrame (bytes.now ++ after) frame
        → result ≡ Err BadPacket.Short }
{
    read_frame(bytes)
}
