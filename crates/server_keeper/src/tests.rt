ghost use Rattle.std.specs.Prelude.{◌≡◌, ◌<◌, IfOk};

use super::*;
use far_base::{Body, Key, Packet, Record};
use far_outside::{Keeper, KeeperFault};
use std::alloc::Global;
use std::test::Fail;

fn key_of(text: &[u8]) -> Result<Key, Fail> {
    Ok(Key::from_text(text).ok_or("no key")?)
}

fn record_of(text: &[u8], num: u64) -> Result<Record, Fail> {
    Ok(Record {
        key: key_of(text)?,
        num,
        body: Body::from_bytes(b"body").ok_or("no body")?,
    })
}

#[test]
fn a_server_keeps_the_greater_number(rt: HostRuntime) -> Result<(), Fail> {
    let mut keeper = MapKeeper::new(rt.alloc());
    keeper.begin(2).map_err(|_| "begin")?;
    keeper.put(1, &record_of(b"b", 3)?).map_err(|_| "put")?;
    keeper.put(1, &record_of(b"a", 5)?).map_err(|_| "put")?;
    keeper.put(1, &record_of(b"b", 2)?).map_err(|_| "put")?;
    keeper.put(1, &record_of(b"c", 4)?).map_err(|_| "put")?;
    assert!(rt; keeper.get(1, &key_of(b"b")?) == Ok(record_of(b"b", 3)?));
    assert!(rt; keeper.get(0, &key_of(b"b")?).map(|record| record.num) == Ok(0));
    assert!(rt; keeper.top(1) == Ok(5));
    let mut listed = Vec::new(rt.alloc());
    keeper.list(1, &mut listed).map_err(|_| "list")?;
    assert!(rt;
        listed.as_slice()
            == [
                record_of(b"a", 5)?,
                record_of(b"b", 3)?,
                record_of(b"c", 4)?
            ]
            .as_slice()
    );
    Ok(())
}

#[test]
fn a_failed_step_changes_no_record(rt: HostRuntime) -> Result<(), Fail> {
    let alloc = rt.alloc();
    let item = record_of(b"a", 1)?;
    let write = Packet::WriteFwd {
        caller: 0,
        op: 1,
        key: item.key,
        num: item.num,
        body: item.body,
    };
    for call in [2, 3] {
        let mut keeper = ScriptedKeeper::new(alloc, Vec::from_array(alloc, [call])?);
        keeper.begin(1).map_err(|_| "begin")?;
        assert!(rt; server_step(&mut keeper, 0, &write) == Err(StepFault::KeeperFailed));
        assert_eq!(rt; keeper.faults(), 1);
        assert!(rt;
            server_step(&mut keeper, 0, &Packet::TopAsk { round: 1 })
                == Ok(Packet::TopIs {
                    round: 1,
                    server: 0,
                    top: 0
                })
        );
        assert!(rt; server_step(&mut keeper, 0, &write).is_ok());
        assert!(rt;
            server_step(&mut keeper, 0, &Packet::TopAsk { round: 2 })
                == Ok(Packet::TopIs {
                    round: 2,
                    server: 0,
                    top: 1
                })
        );
    }
    Ok(())
}

fn deleted(text: &[u8], num: u64) -> Result<Record, Fail> {
    Ok(Record {
        key: key_of(text)?,
        num,
        body: Body::absent(),
    })
}

/// Puts a record at one of three servers.
fn kept(keeper: &mut TableKeeper, server: u32, item: &Record) -> Result<(), Fail>
    requires servers { keeper.old.servers ≡ 3 }
    requires server { server < 3 }
    ensures { keeper.new.servers ≡ 3 }
{
    keeper.put(server, item).map_err(|_| "put")?;
    Ok(())
}

/// A table of three servers, with records at the second and at the third.
fn filled(alloc: Global) -> Result<TableKeeper, Fail>
    ensures { IfOk result (λ keeper. keeper.servers ≡ 3) }
{
    let mut keeper = TableKeeper::new(alloc)?;
    keeper.begin(3).map_err(|_| "begin")?;
    kept(&mut keeper, 1, &record_of(b"b", 3)?)?;
    kept(&mut keeper, 1, &record_of(b"ab", u64::MAX)?)?;
    kept(&mut keeper, 1, &record_of(b"a", 256)?)?;
    kept(&mut keeper, 1, &record_of(b"b", 2)?)?;
    kept(&mut keeper, 1, &record_of(b"c", 0)?)?;
    kept(&mut keeper, 1, &record_of(b"a", 255)?)?;
    kept(&mut keeper, 1, &deleted(b"b", 4)?)?;
    kept(&mut keeper, 2, &record_of(b"a", 7)?)?;
    Ok(keeper)
}

#[test]
fn a_table_keeps_the_greater_number(rt: HostRuntime) -> Result<(), Fail> {
    let mut keeper = filled(rt.alloc())?;
    assert!(rt; keeper.get(1, &key_of(b"a")?) == Ok(record_of(b"a", 256)?));
    assert!(rt; keeper.get(1, &key_of(b"b")?) == Ok(deleted(b"b", 4)?));
    assert!(rt; keeper.get(1, &key_of(b"c")?) == Ok(deleted(b"c", 0)?));
    assert!(rt; keeper.get(0, &key_of(b"a")?) == Ok(deleted(b"a", 0)?));
    assert!(rt; keeper.top(0) == Ok(0));
    assert!(rt; keeper.top(1) == Ok(u64::MAX));
    assert!(rt; keeper.top(2) == Ok(7));
    let mut listed = Vec::new(rt.alloc());
    keeper.list(2, &mut listed).map_err(|_| "list")?;
    keeper.list(1, &mut listed).map_err(|_| "list")?;
    assert!(rt;
        listed.as_slice()
            == [
                record_of(b"a", 7)?,
                record_of(b"a", 256)?,
                record_of(b"ab", u64::MAX)?,
                deleted(b"b", 4)?
            ]
            .as_slice()
    );
    keeper.begin(1).map_err(|_| "begin")?;
    assert!(rt; keeper.top(0) == Ok(0));
    assert_eq!(rt; keeper.faults(), 0);
    Ok(())
}
