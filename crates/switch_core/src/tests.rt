use super::*;
use far_base::{Body, Config, Key, Packet, Record};
use std::test::Fail;

fn read(key: &Key) -> Packet {
    Packet::GetReq {
        caller: 0,
        op: 1,
        key: *key,
    }
}

#[test]
fn a_renewed_switch_has_no_entry(rt: HostRuntime) -> Result<(), Fail> {
    let config = Config {
        clients: 1,
        servers: 1,
        slots: 1,
        hot: 0,
    };
    let key = Key::from_text(b"a").ok_or("no key")?;
    let mut switch = PlainSwitch::new(rt.alloc(), config, 1, 0).map_err(|_| "new")?;
    let admit = Packet::Admit {
        epoch: 1,
        slot: 0,
        key,
        tag: 7,
    };
    let acked = switch.pass(&admit).first.map(|out| out.packet);
    assert!(rt; acked == Some(Packet::AdmitAck { slot: 0, tag: 7 }));
    switch.renew(config, 1, 0).map_err(|_| "renew")?;
    let forwarded = switch.pass(&read(&key)).first.map(|out| out.packet);
    let expected = Packet::GetFwd {
        caller: 0,
        op: 1,
        key,
        tag: 0,
    };
    assert!(rt; forwarded == Some(expected));
    Ok(())
}

/// A packet that does not go to the switch is dropped there: nothing is sent.
#[test]
fn other_packets_send_nothing(rt: HostRuntime) -> Result<(), Fail> {
    let config = Config {
        clients: 1,
        servers: 1,
        slots: 1,
        hot: 1,
    };
    let key = Key::from_text(b"a").ok_or("no key")?;
    let body = Body::from_bytes(b"x").ok_or("no body")?;
    let rec = Record { key, num: 1, body };
    let (caller, op, num, tag, job, id, round, slot) = (0, 1, 1, 1, 1, 1, 1, 0);
    let others = [
        Packet::GetFwd {
            caller,
            op,
            key,
            tag,
        },
        Packet::WriteFwd {
            caller,
            op,
            key,
            num,
            body,
        },
        Packet::GetAns {
            caller,
            op,
            key,
            num,
            body,
            near: false,
        },
        Packet::WriteAns {
            caller,
            op,
            key,
            num,
            kept: false,
        },
        Packet::Hot { key },
        Packet::AdmitAck { slot, tag },
        Packet::PeekAns {
            slot,
            tag,
            latest: true,
            num,
            body,
        },
        Packet::RemoveAns {
            slot,
            tag,
            done: true,
            latest: true,
            num,
            body,
        },
        Packet::SnapBegun { id, point: 1 },
        Packet::SnapPart {
            id,
            slot,
            view: Some(rec),
        },
        Packet::SnapSame { id, slot },
        Packet::Store { job, item: rec },
        Packet::Stored { job },
        Packet::Release { point: 1 },
        Packet::Ask { round },
        Packet::Told {
            round,
            caller,
            total: 1,
            item: Some(rec),
        },
        Packet::TopAsk { round },
        Packet::TopIs {
            round,
            server: 0,
            top: 1,
        },
    ];
    for packet in &others {
        let mut switch = PlainSwitch::new(rt.alloc(), config, 1, 0).map_err(|_| "new")?;
        let sent = switch.pass(packet);
        assert!(rt; sent.first.is_none() && sent.second.is_none());
    }
    Ok(())
}
