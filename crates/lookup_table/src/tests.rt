use super::*;
use crate::mark::mark_of;
use far_base::Key;
use std::test::Fail;

fn key_of(text: &[u8]) -> Result<Key, Fail> {
    Ok(Key::from_text(text).ok_or("no key")?)
}

#[test]
fn a_pair_gives_way_to_a_later_one(rt: HostRuntime) -> Result<(), Fail> {
    let mut table = Lookup::new(rt.alloc(), 3).map_err(|_| "memory")?;
    table.bind(key_of(b"a")?, 0);
    table.bind(key_of(b"b")?, 0);
    assert_eq!(rt; table.find(&key_of(b"a")?), None);
    assert_eq!(rt; table.find(&key_of(b"b")?), Some(0));
    table.bind(key_of(b"b")?, 2);
    assert_eq!(rt; table.find(&key_of(b"b")?), Some(2));
    Ok(())
}

#[test]
fn a_freed_cell_takes_an_overflow_pair(rt: HostRuntime) -> Result<(), Fail> {
    let mut table = Lookup::new(rt.alloc(), 8).map_err(|_| "memory")?;
    table.bind(key_of(b"b")?, 0);
    table.bind(key_of(b"d")?, 1);
    table.bind(key_of(b"f")?, 2);
    table.bind(key_of(b"h")?, 3);
    table.bind(key_of(b"j")?, 4);
    assert_eq!(rt;
        table.place(&key_of(b"j")?),
        Some(Place::Overflow { at: 0 })
    );
    table.bind(key_of(b"a")?, 0);
    assert_eq!(rt; table.find(&key_of(b"b")?), None);
    assert_eq!(rt;
        table.place(&key_of(b"j")?),
        Some(Place::Cell { bucket: 0, cell: 0 })
    );
    assert_eq!(rt;
        table.place(&key_of(b"a")?),
        Some(Place::Cell { bucket: 1, cell: 0 })
    );
    Ok(())
}

#[test]
fn keys_of_one_mark_are_told_apart(rt: HostRuntime) -> Result<(), Fail> {
    let one = key_of(b"0")?;
    let other = key_of(b"p1")?;
    assert_eq!(rt; mark_of(&one), mark_of(&other));
    let mut table = Lookup::new(rt.alloc(), 4).map_err(|_| "memory")?;
    table.bind(one, 0);
    assert_eq!(rt; table.find(&one), Some(0));
    assert_eq!(rt; table.find(&other), None);
    table.bind(other, 1);
    assert_eq!(rt; table.find(&one), Some(0));
    assert_eq!(rt; table.find(&other), Some(1));
    table.bind(key_of(b"a")?, 0);
    assert_eq!(rt; table.find(&one), None);
    assert_eq!(rt; table.find(&other), Some(1));
    table.clear();
    table.bind(one, 3);
    assert_eq!(rt; table.find(&one), Some(3));
    assert_eq!(rt; table.find(&other), None);
    Ok(())
}
