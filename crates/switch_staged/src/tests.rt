use super::*;
use far_base::{Config, Key, Packet};
use std::test::Fail;
use switch_core::Switch;

fn read(key: &Key) -> Packet {
    Packet::GetReq {
        caller: 0,
        op: 1,
        key: *key,
    }
}

#[test]
fn a_reset_switch_has_no_entry(rt: HostRuntime) -> Result<(), Fail> {
    let config = Config {
        clients: 1,
        servers: 1,
        slots: 1,
        hot: 0,
    };
    let key = Key::from_text(b"a").ok_or("no key")?;
    let mut switch = StagedSwitch::new(rt.alloc(), config, 1, 0).map_err(|_| "new")?;
    let admit = Packet::Admit {
        epoch: 1,
        slot: 0,
        key,
        tag: 7,
    };
    let acked = switch.pass(&admit).first.map(|out| out.packet);
    assert!(rt; acked == Some(Packet::AdmitAck { slot: 0, tag: 7 }));
    switch.reset(2, 0);
    let forwarded = switch.pass(&read(&key)).first.map(|out| out.packet);
    let expected = Packet::GetFwd {
        caller: 0,
        op: 1,
        key,
        tag: 0,
    };
    assert!(rt; forwarded == Some(expected));
    switch.renew(config, 1, 0).map_err(|_| "renew")?;
    Ok(())
}

#[test]
fn a_packet_leaves_at_the_last_tick(rt: HostRuntime) -> Result<(), Fail> {
    let key = Key::from_text(b"a").ok_or("no key")?;
    let config = Config {
        clients: 1,
        servers: 1,
        slots: 1,
        hot: 0,
    };
    let mut pipeline = Pipeline::new(rt.alloc(), config, 1, 0).map_err(|_| "new")?;
    assert!(rt; pipeline.can_enter());
    pipeline.enter(read(&key));
    for _ in 0..STAGES - 1 {
        assert!(rt; pipeline.tick().is_none());
    }
    let emit = pipeline.tick().ok_or("no answer")?;
    let answer = emit.first.map(|out| out.packet);
    let expected = Packet::GetFwd {
        caller: 0,
        op: 1,
        key,
        tag: 0,
    };
    assert!(rt; answer == Some(expected));
    Ok(())
}

#[test]
fn a_stop_gives_the_packet_back(rt: HostRuntime) -> Result<(), Fail> {
    let key = Key::from_text(b"a").ok_or("no key")?;
    let config = Config {
        clients: 1,
        servers: 1,
        slots: 1,
        hot: 0,
    };
    let mut pipeline = Pipeline::new(rt.alloc(), config, 1, 0).map_err(|_| "new")?;
    assert!(rt; pipeline.can_enter());
    pipeline.enter(read(&key));
    for _ in 0..STAGES - 1 {
        assert!(rt; pipeline.tick().is_none());
    }
    let packets = pipeline.stop();
    assert!(rt; packets[0] == Some(read(&key)));
    assert!(rt; packets[1].is_none());
    Ok(())
}
