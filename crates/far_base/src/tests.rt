use super::*;
use std::test::Fail;

fn key_of(text: &[u8]) -> Result<Key, Fail> {
    Ok(Key::from_text(text).ok_or("no key")?)
}

#[test]
fn keys_have_their_sums_and_cells(rt: HostRuntime) -> Result<(), Fail> {
    let key = key_of(b"ab")?;
    assert_eq!(rt; key.byte_sum(), 195);
    assert_eq!(rt; key.cell(), 37);
    assert_eq!(rt; key.byte_sum() % 4, 3);
    assert!(rt; Key::from_text(b"").is_none());
    assert!(rt; Key::from_text(b"0123456789abcdefg").is_none());
    assert!(rt; Key::from_text(b"a b").is_none());
    Ok(())
}

#[test]
fn a_key_gives_its_text_back(rt: HostRuntime) -> Result<(), Fail> {
    assert!(rt; key_of(b"k17")?.text() == b"k17".as_slice());
    assert!(rt; key_of(b"0123456789abcdef")?.text() == b"0123456789abcdef".as_slice());
    Ok(())
}

#[test]
fn bodies_end_at_their_limit(rt: HostRuntime) -> Result<(), Fail> {
    let body = Body::from_bytes(&[120; BODY_LIMIT]).ok_or("no body")?;
    assert_eq!(rt; body.text().len(), BODY_LIMIT);
    assert!(rt; Body::from_bytes(&[120; BODY_LIMIT + 1]).is_none());
    assert!(rt; !Body::absent().is_present());
    assert!(rt; Body::absent().text().is_empty());
    Ok(())
}

#[test]
fn keys_are_ordered_by_their_bytes(rt: HostRuntime) -> Result<(), Fail> {
    let texts: [&[u8]; 5] = [b"a", b"aa", b"abcdefgh", b"abcdefgha", b"b"];
    for (i, first) in texts.iter().enumerate() {
        for (j, second) in texts.iter().enumerate() {
            assert_eq!(rt; key_of(first)? < key_of(second)?, i < j);
            assert_eq!(rt; key_of(first)? == key_of(second)?, i == j);
        }
    }
    Ok(())
}

#[test]
fn operations_are_read_as_they_were_put(rt: HostRuntime) -> Result<(), Fail> {
    let alloc = rt.alloc();
    let mut ops = Ops::new(alloc);
    let bodies = [
        Body::absent(),
        Body::from_bytes(b"v1").ok_or("no body")?,
        Body::from_bytes(b"").ok_or("no body")?,
        Body::from_bytes(&[120; BODY_LIMIT]).ok_or("no body")?,
    ];
    for (i, body) in bodies.iter().enumerate() {
        let line = OpLine {
            client: i as u32,
            op: Op::Put,
            key: key_of(b"k17")?,
            body: *body,
        };
        ops.push(&line).map_err(|_| "no memory")?;
    }
    let copy = ops.copied(alloc).map_err(|_| "no memory")?;
    assert_eq!(rt; copy.len(), 4);
    for (i, body) in bodies.iter().enumerate() {
        assert_eq!(rt; copy.client(i), i as u32);
        assert!(rt; ops.line(i).body == *body);
        assert!(rt; copy.line(i) == ops.line(i));
    }
    Ok(())
}
