use super::*;
use far_base::{Body, Key, Op, OpLine, Packet};
use std::alloc::Global;
use std::test::Fail;

fn write(alloc: Global, client: &mut Client, text: &[u8], num: u64) -> Result<(), Fail> {
    let line = OpLine {
        client: 3,
        op: Op::Del,
        key: Key::from_text(text).ok_or("no key")?,
        body: Body::absent(),
    };
    if !client.is_idle() {
        return Err("not idle")?;
    }
    let mut out = Vec::new(alloc);
    out.reserve(1)?;
    client.send(1, &line, &mut out).map_err(|_| "no memory")?;
    client.answered(&Packet::WriteAns {
        caller: 3,
        op: 1,
        key: line.key,
        num,
        kept: true,
    });
    Ok(())
}

#[test]
fn a_key_that_comes_again_goes_last(rt: HostRuntime) -> Result<(), Fail> {
    let mut client = Client::new(rt.alloc(), 3);
    write(rt.alloc(), &mut client, b"a", 1)?;
    write(rt.alloc(), &mut client, b"b", 5)?;
    write(rt.alloc(), &mut client, b"c", 6)?;
    write(rt.alloc(), &mut client, b"b", 7)?;
    client.released(4);
    write(rt.alloc(), &mut client, b"a", 8)?;
    write(rt.alloc(), &mut client, b"d", 3)?;
    let mut nums = Vec::new(rt.alloc());
    for record in client.preserved() {
        nums.push(record.num)?;
    }
    assert!(rt; nums.as_slice() == [7, 6, 8].as_slice());
    if client.preserved().len() != 3 {
        return Err("not three records")?;
    }
    let Packet::Told {
        caller: 3,
        total: 3,
        item: Some(item),
        ..
    } = client.tell(2, 2)
    else {
        return Err("not told")?;
    };
    assert_eq!(rt; item.num, 8);
    assert!(rt; client.is_idle());
    Ok(())
}
