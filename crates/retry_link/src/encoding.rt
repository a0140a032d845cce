ghost use Rattle.std.specs.Prelude.{◌≡◌, ◌≤◌, ◌++◌, [], ◌∷◌, ℕ, List, Ok, length};
ghost use Rattle.retry_link.specs.Frames.{IsSendable, SpellsFrame, frame_bytes};
ghost use Rattle.retry_link.specs.FrameReading.{frame_of};
ghost use Rattle.retry_link.specs.declared.frame.TheConstants.{FRAME_LIMIT};

use crate::bytes::FrameWire;
use crate::frame::{ACK, DATA, Frame};
use packet_codec::Wire;

fn put_data(out: &mut FrameWire, num: u64, wire: &Wire)
    requires empty { out.old ≡ [] }
    requires message { IsSendable (Frame.Data num wire.now) }
    ensures spelled { SpellsFrame out.new (Frame.Data num wire.now) }
    ensures short { length out.new ≤ FRAME_LIMIT }
{
    out.push(&[DATA]);
    out.u64(num);
    out.u16(wire.bytes().len() as u16);
    out.push(wire.bytes());
}

fn put_ack(out: &mut FrameWire, num: u64)
    requires empty { out.old ≡ [] }
    ensures spelled { SpellsFrame out.new (Frame.Ack num) }
    ensures short { length out.new ≤ FRAME_LIMIT }
{
    out.push(&[ACK]);
    out.u64(num);
}

fn put(out: &mut FrameWire, frame: &Frame)
    requires empty { out.old ≡ [] }
    requires message { IsSendable frame.now }
    ensures spelled { SpellsFrame out.new frame.now }
    ensures short { length out.new ≤ FRAME_LIMIT }
{
    match frame {
        Frame::Data { num, wire } => put_data(out, *num, wire),
        Frame::Ack { num } => put_ack(out, *num),
    }
}

/// The one spelling of the frame, whose message has from 1 to `WIRE_SIZE` bytes.
pub fn encode_frame(frame: &Frame) -> FrameWire
    requires { IsSendable frame.now }
    ensures spelled { SpellsFrame result frame.now }
    ensures same { result ≡ frame_bytes frame.now }
    ensures only { (bytes : List ℕ) → SpellsFrame bytes frame.now → bytes ≡ result }
    // It is read again.
    ensures again { frame_of result ≡ Ok frame.now }
    ensures short { length result ≤ FRAME_LIMIT }
{
    let mut out = FrameWire::new();
    put(&mut out, frame);
    out
}
