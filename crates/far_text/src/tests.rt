use super::*;
use far_base::{Body, Key};
use std::test::Fail;

#[test]
fn words_are_written(rt: HostRuntime) -> Result<(), Fail> {
    let key = Key::from_text(b"k1").ok_or("no key")?;
    let body = Body::from_bytes(b"x").ok_or("no body")?;
    let mut out = Vec::new(rt.alloc());
    let words = [
        Word::Text(b"put"),
        Word::Number(18446744073709551615),
        Word::Key(&key),
        Word::Body(&body),
    ];
    put_line(&mut out, &words).ok().ok_or("no line")?;
    put_line(&mut out, &[]).ok().ok_or("no line")?;
    put_word(&mut out, &Word::Number(0)).ok().ok_or("no word")?;
    put_number(&mut out, 70).ok().ok_or("no number")?;
    put_key(&mut out, &key).ok().ok_or("no key")?;
    put_body(&mut out, &Body::absent()).ok().ok_or("no body")?;
    put_text(&mut out, b"end").ok().ok_or("no text")?;
    assert_eq!(rt;
        out.as_slice(),
        b"put 18446744073709551615 k1 =x\n\n070k1-end".as_slice()
    );
    Ok(())
}

#[test]
fn words_are_read(rt: HostRuntime) {
    assert_eq!(rt; number_of(b"9999999999999999999"), Some(NUMBER_LIMIT));
    assert_eq!(rt; number_of(b"0"), Some(0));
    for word in [
        b"".as_slice(),
        b"00".as_slice(),
        b"07".as_slice(),
        b"+7".as_slice(),
        b"10000000000000000000".as_slice(),
    ] {
        assert_eq!(rt; number_of(word), None);
    }
    assert!(rt; key_of(b"k1").is_some() && key_of(b"").is_none());
    assert!(rt; body_of(b"-").is_some() && body_of(b"=a b").is_none());
    assert!(rt; matches!(body_bytes_of(b"="), Some([])) && body_bytes_of(b"-").is_none());
}

#[test]
fn bytes_are_two_digits_each(rt: HostRuntime) -> Result<(), Fail> {
    let alloc = rt.alloc();
    let bytes = [0, 9, 10, 0xa0, 255];
    let mut out = Vec::new(alloc);
    put_hex(&mut out, &bytes).ok().ok_or("no digits")?;
    put_word(&mut out, &Word::Hex(&[0x7f]))
        .ok()
        .ok_or("no word")?;
    assert!(rt; out.as_slice() == b"00090aa0ff7f".as_slice());
    let read = hex_of(alloc, b"00090aa0ff").ok().ok_or("no memory")?;
    assert!(rt; read.ok_or("not read")?.as_slice() == bytes.as_slice());
    let none = hex_of(alloc, b"").ok().ok_or("no memory")?;
    assert!(rt; none.ok_or("not read")?.is_empty());
    for word in [
        b"0".as_slice(),
        b"0A".as_slice(),
        b"0g".as_slice(),
        b" 0".as_slice(),
    ] {
        assert!(rt; hex_of(alloc, word).ok().ok_or("no memory")?.is_none());
    }
    Ok(())
}

#[test]
fn lines_end_at_their_ends(rt: HostRuntime) {
    let mut lines = Lines::new(b"one two\n\nrest");
    assert!(rt; matches!(lines.next_line(), Some(b"one two")));
    assert!(rt; matches!(lines.next_line(), Some(b"")));
    assert!(rt; lines.next_line().is_none());
    assert!(rt; lines.read == 2 && lines.rest == b"rest".as_slice());
}
