use super::*;
use far_base::{Body, Key, Record};
use std::test::Fail;

fn record(key: &[u8], num: u64, text: &[u8]) -> Result<Record, Fail> {
    Ok(Record {
        key: Key::from_text(key).ok_or("no key")?,
        num,
        body: Body::from_bytes(text).ok_or("no body")?,
    })
}

fn unwritten(key: &[u8]) -> Result<Record, Fail> {
    Ok(Record {
        key: Key::from_text(key).ok_or("no key")?,
        num: 0,
        body: Body::absent(),
    })
}

#[test]
fn the_newest_of_each_key(rt: HostRuntime) -> Result<(), Fail> {
    let list = [
        record(b"b", 3, b"q")?,
        record(b"a", 2, b"p")?,
        unwritten(b"c")?,
        record(b"b", 7, b"r")?,
        record(b"b", 5, b"s")?,
        record(b"a", 2, b"p")?,
        unwritten(b"a")?,
    ];
    let newest = greatest(rt.alloc(), &list).ok().ok_or("no memory")?;
    assert!(rt; newest.as_slice() == [record(b"a", 2, b"p")?, record(b"b", 7, b"r")?].as_slice());
    let none = greatest(rt.alloc(), &[]).ok().ok_or("no memory")?;
    assert!(rt; none.is_empty());
    Ok(())
}
