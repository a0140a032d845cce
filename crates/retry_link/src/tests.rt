ghost use Rattle.std.specs.Prelude.{◌≤◌, length, IfOk};
ghost use Rattle.retry_link.specs.Frames.{IsMessage};

use super::*;
use std::test::Fail;

fn message(bytes: &[u8]) -> Result<Wire, Fail>
    requires some { 1 ≤ length bytes.now }
    requires few { length bytes.now ≤ 320 }
    ensures { IfOk result IsMessage }
{
    Ok(Wire::from_bytes(bytes).ok_or("no wire")?)
}

fn is_data(frame: &Frame, number: u64, bytes: &[u8]) -> bool {
    match frame {
        Frame::Data { num, wire } => *num == number && wire.bytes() == bytes,
        Frame::Ack { .. } => false,
    }
}

fn is_ack(frame: &Frame, number: u64) -> bool {
    match frame {
        Frame::Data { .. } => false,
        Frame::Ack { num } => *num == number,
    }
}

const ACK: &[u8] = b"\x02\0\0\0\0\0\0\0\x07";

#[test]
fn frames_are_spelled(rt: HostRuntime) -> Result<(), Fail> {
    let wire = message(b"xyz")?;
    let spelled = encode_frame(&Frame::Data { num: 258, wire });
    assert!(rt; spelled.bytes() == b"\x01\0\0\0\0\0\0\x01\x02\0\x03xyz".as_slice());
    let ack = encode_frame(&Frame::Ack { num: 7 });
    assert!(rt; ack.bytes() == ACK);
    match decode_frame(spelled.bytes()) {
        Ok(frame) => assert!(rt; is_data(&frame, 258, b"xyz")),
        Err(_) => return Err(Fail::from("not read")),
    }
    match decode_frame(ACK) {
        Ok(frame) => assert!(rt; is_ack(&frame, 7)),
        Err(_) => return Err(Fail::from("not read")),
    }
    Ok(())
}

fn fault_of(bytes: &[u8]) -> Option<BadPacket> {
    match decode_frame(bytes) {
        Ok(_) => None,
        Err(fault) => Some(fault),
    }
}

#[test]
fn the_first_fault_decides(rt: HostRuntime) {
    assert_eq!(rt; fault_of(b""), Some(BadPacket::Short));
    assert_eq!(rt; fault_of(b"\x03"), Some(BadPacket::Kind));
    assert_eq!(rt; fault_of(b"\x02\0\0\0\0\0\0\0"), Some(BadPacket::Short));
    assert_eq!(rt;
        fault_of(b"\x02\0\0\0\0\0\0\0\x07\0"),
        Some(BadPacket::Rest)
    );
    assert_eq!(rt;
        fault_of(b"\x01\0\0\0\0\0\0\0\x01\0"),
        Some(BadPacket::Short)
    );
    assert_eq!(rt;
        fault_of(b"\x01\0\0\0\0\0\0\0\x01\0\0"),
        Some(BadPacket::Length)
    );
    assert_eq!(rt;
        fault_of(b"\x01\0\0\0\0\0\0\0\x01\x01\x41"),
        Some(BadPacket::Length)
    );
    assert_eq!(rt;
        fault_of(b"\x01\0\0\0\0\0\0\0\x01\x01\x40x"),
        Some(BadPacket::Short)
    );
}

/// A message is offered, sent again, taken in, and acknowledged. More of them stand in the tests of `link_text`.
#[test]
fn a_message_passes(rt: HostRuntime) -> Result<(), Fail> {
    let mut sender = LinkSender::new(rt.alloc()).map_err(|_| "no memory")?;
    let wire = message(b"x")?;
    match sender.offer(wire) {
        Some(frame) => assert!(rt; is_data(&frame, 1, b"x")),
        None => return Err(Fail::from("full")),
    }
    let mut receiver = LinkReceiver::new();
    let taken = receiver.take_in(1, wire);
    assert!(rt; taken.up.is_some() && taken.ack.is_some());
    sender.acked(2);
    assert_eq!(rt; sender.unacked(), 1);
    sender.acked(1);
    assert_eq!(rt; sender.unacked(), 0);
    Ok(())
}
