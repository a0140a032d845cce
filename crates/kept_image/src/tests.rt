use super::*;
use far_base::{Body, KeptItem, KeptPlace, Key, Record};
use std::alloc::Global;
use std::test::Fail;

fn item(place: KeptPlace, key: &[u8], num: u64, text: &[u8]) -> Result<KeptItem, Fail> {
    let rec = Record {
        key: Key::from_text(key).ok_or("no key")?,
        num,
        body: Body::from_bytes(text).ok_or("no body")?,
    };
    Ok(KeptItem { place, rec })
}

#[test]
fn what_was_written_reads_again(rt: HostRuntime) -> Result<(), Fail> {
    let mut image = Image {
        items: Vec::new(rt.alloc()),
    };
    image.items.extend_from_slice(&[
        item(KeptPlace::Snap, b"a", 1, b"p")?,
        item(KeptPlace::Server(3), b"b", 9_999_999_999_999_999_999, b"")?,
        item(KeptPlace::Client(63), b"a", 2, b"q")?,
    ])?;
    let text = write(rt.alloc(), &image).ok().ok_or("not written")?;
    let lines =
        b"far 2 image\nsnap a 1 =p\nserver b 9999999999999999999 =\nclient 63 a 2 =q\nend\n";
    assert_eq!(rt; text.as_slice(), lines.as_slice());
    let read = parse(rt.alloc(), &text).ok().ok_or("not read")?;
    image.items[1].place = KeptPlace::Server(0);
    assert!(rt; read.items.as_slice() == image.items.as_slice());
    Ok(())
}

#[test]
fn a_recovery_leaves_the_newest_records(rt: HostRuntime) -> Result<(), Fail> {
    for (text, map) in [
        (
            b"far 2 image\nsnap a 1 =p\nclient 0 a 2 =q\nend\n".as_slice(),
            b"far 1 recovered\nmap 1\na 2 =q\nend\n".as_slice(),
        ),
        (
            b"far 1 image\nserver b 0 -\nserver a 3 -\nsnap a 3 -\nclient 1 c 2 =x\nend\n".as_slice(),
            b"far 1 recovered\nmap 2\na 3 -\nc 2 =x\nend\n".as_slice(),
        ),
        (
            b"far 1 image\nend\n".as_slice(),
            b"far 1 recovered\nmap 0\nend\n".as_slice(),
        ),
    ] {
        let image = parse(rt.alloc(), text).ok().ok_or("not read")?;
        let records = recovered(rt.alloc(), &image).ok().ok_or("no map")?;
        let written = map_text(rt.alloc(), &records).ok().ok_or("not written")?;
        assert_eq!(rt; written.as_slice(), map);
    }
    Ok(())
}

#[test]
fn the_first_fault_decides(rt: HostRuntime) {
    for (text, fault) in [
        (b"".as_slice(), ImageFault::BadLine(1)),
        (b"far 3 image\nend\n".as_slice(), ImageFault::BadLine(1)),
        (b"far 2 image".as_slice(), ImageFault::BadLine(1)),
        (b"far 2 image\n".as_slice(), ImageFault::BadLine(2)),
        (
            b"far 2 image\nserver a 3 =x\nend".as_slice(),
            ImageFault::BadLine(3),
        ),
        (
            b"far 2 image\nend\nsnap a 1 =p\n".as_slice(),
            ImageFault::BadLine(3),
        ),
        (b"far 2 image\nend\n\n".as_slice(), ImageFault::BadLine(3)),
        (
            b"far 2 image\nsnap a 0 =p\nend\n".as_slice(),
            ImageFault::BadLine(2),
        ),
        (
            b"far 2 image\nclient 64 a 1 =p\nend\n".as_slice(),
            ImageFault::BadLine(2),
        ),
        (
            b"far 2 image\nserver 0 a 1 =p\nend\n".as_slice(),
            ImageFault::BadLine(2),
        ),
        (
            b"far 1 image\nserver a 3 =x\nclient 0 a 3 =y\nend\n".as_slice(),
            ImageFault::Conflict(3),
        ),
        (
            b"far 1 image\nserver a 3 =x\nclient 0 a 3 -\nbad\n".as_slice(),
            ImageFault::Conflict(3),
        ),
        (
            b"far 1 image\nserver a 3 =x\nbad\nclient 0 a 3 =y\nend\n".as_slice(),
            ImageFault::BadLine(3),
        ),
    ] {
        assert!(rt; matches!(parse(rt.alloc(), text), Err(found) if found == fault));
    }
}

/// An image of one record, whose body has so many bytes.
fn with_body(alloc: Global, first: &[u8], count: usize) -> Result<Vec<u8>, Fail> {
    let mut text = Vec::new(alloc);
    text.extend_from_slice(first)?;
    text.extend_from_slice(b"\nserver a 1 =")?;
    for _ in 0..count {
        text.push(b'x')?;
    }
    text.extend_from_slice(b"\nend\n")?;
    Ok(text)
}

#[test]
fn bodies_may_be_longer_in_the_second_version(rt: HostRuntime) -> Result<(), Fail> {
    for (first, count, reads) in [
        (b"far 1 image".as_slice(), 128, true),
        (b"far 1 image".as_slice(), 129, false),
        (b"far 2 image".as_slice(), 129, true),
        (b"far 2 image".as_slice(), 256, true),
        (b"far 2 image".as_slice(), 257, false),
    ] {
        let text = with_body(rt.alloc(), first, count)?;
        assert!(rt; text.len() < 1000);
        assert_eq!(rt; parse(rt.alloc(), &text).is_ok(), reads);
    }
    Ok(())
}
