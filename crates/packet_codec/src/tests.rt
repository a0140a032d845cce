use super::*;
use far_base::{Body, Key, Record};
use std::test::Fail;

const GET: [u8; 26] = *b"\x02\x01\0\0\0\x01\0\0\0\x02a\0\0\0\0\0\0\0\0\0\0\0\0\0\0\0";

const WRITE: [u8; 30] = *b"\x02\x02\0\0\0\0\0\0\0\x01a\0\0\0\0\0\0\0\0\0\0\0\0\0\0\0\x01\0\x01x";

#[test]
fn two_requests_are_spelled(rt: HostRuntime) -> Result<(), Fail> {
    let key = Key::from_text(b"a").ok_or("no key")?;
    let body = Body::from_bytes(b"x").ok_or("no body")?;
    let get = Packet::GetReq {
        caller: 1,
        op: 2,
        key,
    };
    let write = Packet::WriteReq {
        caller: 0,
        op: 1,
        key,
        body,
    };
    assert!(rt; encode(&get).bytes() == GET.as_slice());
    assert!(rt; encode(&write).bytes() == WRITE.as_slice());
    assert!(rt; decode(&GET) == Ok(get));
    assert!(rt; decode(&WRITE) == Ok(write));
    assert!(rt; read_key(&GET, 10) == Ok(key));
    assert!(rt; read_key(&GET, 11) == Err(BadPacket::Short));
    assert!(rt; read_key(&GET, 4_000_000_000) == Err(BadPacket::Short));
    assert!(rt; read_body(&WRITE, 26) == Ok(body));
    assert!(rt; read_rec(&WRITE, 10) == Err(BadPacket::Short));
    assert!(rt; read_rec(SPELLINGS[19], 10).is_ok());
    Ok(())
}

#[test]
fn fields_stand_in_their_order(rt: HostRuntime) -> Result<(), Fail> {
    let body = Body::from_bytes(b"xyz").ok_or("no body")?;
    let removed = Packet::RemoveAns {
        slot: 1,
        tag: 2,
        done: false,
        latest: true,
        num: 3,
        body,
    };
    let told = Packet::Told {
        round: 1,
        caller: 2,
        total: 3,
        item: None,
    };
    let from = Packet::SnapFrom {
        epoch: 1,
        id: 2,
        base: 3,
    };
    assert!(rt; decode(SPELLINGS[14]) == Ok(removed));
    assert!(rt; decode(SPELLINGS[23]) == Ok(told));
    assert!(rt; decode(SPELLINGS[26]) == Ok(Packet::SnapSame { id: 1, slot: 2 }));
    assert!(rt; decode(SPELLINGS[27]) == Ok(from));
    Ok(())
}

#[test]
fn the_longest_packet_fits(rt: HostRuntime) -> Result<(), Fail> {
    let longest = Packet::GetRep {
        caller: 1,
        op: 2,
        key: Key::from_text(b"a").ok_or("no key")?,
        tag: 3,
        num: 4,
        body: Body::from_bytes(&[120; 256]).ok_or("no body")?,
    };
    assert_eq!(rt; encode(&longest).bytes().len(), 301);
    let full = Wire::from_bytes(&[7; 320]).ok_or("no wire")?;
    assert!(rt; full.bytes() == [7; 320].as_slice());
    assert!(rt; Wire::from_bytes(&[7; 321]).is_none());
    Ok(())
}

fn fault_of(bytes: &[u8]) -> Option<BadPacket> {
    match decode(bytes) {
        Ok(_) => None,
        Err(fault) => Some(fault),
    }
}

#[test]
fn the_first_fault_decides(rt: HostRuntime) {
    assert_eq!(rt; fault_of(&[]), Some(BadPacket::Short));
    assert_eq!(rt; fault_of(&[1, 1]), Some(BadPacket::Version));
    assert_eq!(rt; fault_of(&[2, 27]), Some(BadPacket::Short));
    assert_eq!(rt; fault_of(&[2, 29]), Some(BadPacket::Kind));
    let mut get = GET;
    get[10] = 0;
    assert_eq!(rt; fault_of(&get), Some(BadPacket::Pad));
    let mut write = WRITE;
    write[26] = 2;
    assert_eq!(rt; fault_of(&write), Some(BadPacket::Flag));
    write[26] = 1;
    write[27] = 1;
    assert_eq!(rt; fault_of(&write), Some(BadPacket::Length));
}

// The numbers in each packet are 1, 2 and so on, in their order.
const SPELLINGS: [&[u8]; KIND_COUNT as usize] = [
    b"\x02\x01\0\0\0\x01\0\0\0\x02abcdefghijklmnop",
    b"\x02\x02\0\0\0\x01\0\0\0\x02abcdefghijklmnop\x01\0\x03xyz",
    b"\x02\x03\0\0\0\x01\0\0\0\x02abcdefghijklmnop\0\0\0\0\0\0\0\x03",
    b"\x02\x04\0\0\0\x01\0\0\0\x02abcdefghijklmnop\0\0\0\0\0\0\0\x03\x01\0\x03xyz",
    b"\x02\x05\0\0\0\x01\0\0\0\x02abcdefghijklmnop\0\0\0\0\0\0\0\x03\0\0\0\0\0\0\0\x04\x01\0\x03xyz",
    b"\x02\x06\0\0\0\x01\0\0\0\x02abcdefghijklmnop\0\0\0\0\0\0\0\x03\x01\0\x03xyz",
    b"\x02\x07\0\0\0\x01\0\0\0\x02abcdefghijklmnop\0\0\0\0\0\0\0\x03\x01\0\x03xyz\x01",
    b"\x02\x08\0\0\0\x01\0\0\0\x02abcdefghijklmnop\0\0\0\0\0\0\0\x03\x01",
    b"\x02\x09abcdefghijklmnop",
    b"\x02\x0a\0\0\0\x01\0\0\0\x02abcdefghijklmnop\0\0\0\0\0\0\0\x03",
    b"\x02\x0b\0\0\0\x01\0\0\0\0\0\0\0\x02",
    b"\x02\x0c\0\0\0\x01\0\0\0\x02\0\0\0\0\0\0\0\x03",
    b"\x02\x0d\0\0\0\x01\0\0\0\0\0\0\0\x02\x01\0\0\0\0\0\0\0\x03\x01\0\x03xyz",
    b"\x02\x0e\0\0\0\x01\0\0\0\x02\0\0\0\0\0\0\0\x03\x01\0\0\0\0\0\0\0\x04",
    b"\x02\x0f\0\0\0\x01\0\0\0\0\0\0\0\x02\0\x01\0\0\0\0\0\0\0\x03\x01\0\x03xyz",
    b"\x02\x10\0\0\0\x01\0\0\0\x02",
    b"\x02\x11\0\0\0\x01\0\0\0\0\0\0\0\x02",
    b"\x02\x12\0\0\0\x01\0\0\0\x02\0\0\0\x03",
    b"\x02\x13\0\0\0\x01\0\0\0\x02\x01abcdefghijklmnop\0\0\0\0\0\0\0\x07\x01\0\x03xyz",
    b"\x02\x14\0\0\0\0\0\0\0\x01abcdefghijklmnop\0\0\0\0\0\0\0\x07\x01\0\x03xyz",
    b"\x02\x15\0\0\0\0\0\0\0\x01",
    b"\x02\x16\0\0\0\0\0\0\0\x01",
    b"\x02\x17\0\0\0\x01",
    b"\x02\x18\0\0\0\x01\0\0\0\x02\0\0\0\x03\0",
    b"\x02\x19\0\0\0\x01",
    b"\x02\x1a\0\0\0\x01\0\0\0\x02\0\0\0\0\0\0\0\x03",
    b"\x02\x1b\0\0\0\x01\0\0\0\x02",
    b"\x02\x1c\0\0\0\x01\0\0\0\x02\0\0\0\x03",
];

#[test]
fn each_kind_has_one_spelling(rt: HostRuntime) -> Result<(), Fail> {
    for (place, bytes) in SPELLINGS.iter().enumerate() {
        let kind = bytes.get(1).ok_or("no kind")?;
        assert_eq!(rt; *kind as usize, place + 1);
        let packet = decode(bytes).ok().ok_or("no packet")?;
        let mut wire = encode(&packet);
        assert!(rt; wire.bytes() == *bytes);
        for end in 0..bytes.len() {
            assert_eq!(rt; fault_of(&bytes[..end]), Some(BadPacket::Short));
        }
        wire.push(&[0]);
        assert_eq!(rt; fault_of(wire.bytes()), Some(BadPacket::Rest));
    }
    Ok(())
}
