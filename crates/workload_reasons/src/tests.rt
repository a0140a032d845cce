use super::*;
use std::alloc::Global;
use std::test::Fail;
use workload::{Limit, WorkFault, parse};

const ORDERS: &str =
    "after the five head lines come get, put, del, admit, evict, snap, stop, picks, random";

const FORM: &str = "the form is";

/// What is said of the line that `parse` refuses, behind its number.
fn said(alloc: Global, text: &[u8]) -> Result<String, Fail> {
    if text.len() > 1000 {
        return Err(Fail::from("too long"));
    }
    match parse(alloc, text) {
        Err(WorkFault::BadLine(number)) => {
            let reason = explain(text, number).ok_or("no reason")?;
            Ok(format!(in alloc; "{number}: {reason}")?)
        }
        _ => Err(Fail::from("not refused")),
    }
}

/// Whole texts, and what is said of them.
const HEADS: [(&[u8], &str); 22] = [
    (
        b"",
        "1: the text ends before this line, which is to be `far 1`",
    ),
    (b"far 1", "1: the last line does not end with a line feed"),
    (b"far 2\n", "1: this line is to be `far 1`"),
    (b"\n", "1: this line is to be `far 1`"),
    (
        b"far 1\r\nclients 1\r\n",
        "1: this line has byte 13 (a carriage return), and is to be `far 1`",
    ),
    (
        b"\xef\xbb\xbffar 1\n",
        "1: this line has byte 239 (no ASCII character), and is to be `far 1`",
    ),
    (
        b"far 1\n",
        "2: the text ends before this line, which is to be `clients N`, with N from 1 to 64",
    ),
    (
        b"far 1\nservers 1\nslots 1\nhot 0\n",
        "2: this line is to be `clients N`, with N from 1 to 64",
    ),
    (
        b"far 1\nclients\t1\n",
        "2: this line has byte 9 (a tab), and is to be `clients N`, with N from 1 to 64",
    ),
    (
        b"far 1\nclients 0\n",
        "2: N is 0; this line is to be `clients N`, with N from 1 to 64",
    ),
    (
        b"far 1\nclients 01\n",
        "2: N is to be a number with no zero in front of its digits; this line is to be `clients N`, with N from 1 \
         to 64",
    ),
    (
        b"far 1\nclients \n",
        "2: N is missing; one space stands between two words; this line is to be `clients N`, with N from 1 to 64",
    ),
    (
        b"far 1\nclients 1 \n",
        "2: N is to be a number, and byte 32 (a space) is no digit; this line is to be `clients N`, with N from 1 \
         to 64",
    ),
    (
        b"far 1\nclients 1",
        "2: the last line does not end with a line feed",
    ),
    (
        b"far 1\nclients 1\n\n",
        "3: this line is to be `servers N`, with N from 1 to 16",
    ),
    (
        b"far 1\nclients 1\nservers one\n",
        "3: N is to be a number, and `o` is no digit; this line is to be `servers N`, with N from 1 to 16",
    ),
    (
        b"far 1\nclients 1\nservers 1\n",
        "4: the text ends before this line, which is to be `slots N`, with N from 1 to 1024",
    ),
    (
        b"far 1\nclients 1\nservers 1\nslots 0\nhot 0\n",
        "4: N is 0; this line is to be `slots N`, with N from 1 to 1024",
    ),
    (
        b"far 1\nclients 1\nservers 1\nslots 1\n",
        "5: the text ends before this line, which is to be `hot N`, with N from 0 to 65535",
    ),
    (
        b"far 1\nclients 1\nservers 1\nslots 1\nhot -1\n",
        "5: N is to be a number, and `-` is no digit; this line is to be `hot N`, with N from 0 to 65535",
    ),
    (
        b"far 1\nclients 1\nservers 1\nslots 1\nhot 0\nget 0 a",
        "6: the last line does not end with a line feed",
    ),
    (
        b"far 1\nclients 3\nservers 1\nslots 1\nhot 0\ndel 3 a\n",
        "6: client 3, but the workload has 3 (0 to 2)",
    ),
];

/// Lines behind a head with one client, and what is said of them in front of `ORDERS`.
const UNKNOWN: [(&[u8], &str); 8] = [
    (b"\n", "6: the line is empty"),
    (b"get 0 a\n\nget 0 a\n", "7: the line is empty"),
    (b"# what follows\n", "6: no such order"),
    (b"flush\n", "6: no such order"),
    (b"GET 0 a\n", "6: no such order"),
    (b" get 0 a\n", "6: no such order"),
    (
        b"get\t0\ta\n",
        "6: no such order, its word has byte 9 (a tab)",
    ),
    (
        b"get 0 a\n\r\n",
        "7: no such order, its word has byte 13 (a carriage return)",
    ),
];

/// Lines behind a head with one client, and what is said of them in front of the form of the order.
const FIRST_FORMS: [(&[u8], &str, &str); 10] = [
    (
        b"get\n",
        "6: only the first word is there",
        "`get CLIENT KEY`",
    ),
    (b"get 0\n", "6: the key is missing", "`get CLIENT KEY`"),
    (
        b"get 0 \n",
        "6: the key is missing; one space stands between two words",
        "`get CLIENT KEY`",
    ),
    (
        b"get a 0\n",
        "6: the client is to be a number, and `a` is no digit",
        "`get CLIENT KEY`",
    ),
    (
        b"get -1 a\n",
        "6: the client is to be a number, and `-` is no digit",
        "`get CLIENT KEY`",
    ),
    (
        b"get  0 a\n",
        "6: the client is missing; one space stands between two words",
        "`get CLIENT KEY`",
    ),
    (
        b"get 00 a\n",
        "6: the client is to be a number with no zero in front of its digits",
        "`get CLIENT KEY`",
    ),
    (b"get 0\ta\n", "6: the key is missing", "`get CLIENT KEY`"),
    (
        b"get 0 0123456789abcdefg\n",
        "6: a key has at most 16 characters, this one has 17",
        "`get CLIENT KEY`",
    ),
    (
        b"get 0 caf\xc3\xa9\n",
        "6: a key has letters, digits and other visible ASCII characters, this one has byte 195 (no ASCII character)",
        "`get CLIENT KEY`",
    ),
];

/// More of them.
const KEY_FORMS: [(&[u8], &str, &str); 10] = [
    (
        b"get 0  a\n",
        "6: a key has letters, digits and other visible ASCII characters, this one has byte 32 (a space)",
        "`get CLIENT KEY`",
    ),
    (
        b"get 0 a\r\n",
        "6: a key has letters, digits and other visible ASCII characters, this one has byte 13 (a carriage return)",
        "`get CLIENT KEY`",
    ),
    (
        b"get 0 a =x\n",
        "6: a key has letters, digits and other visible ASCII characters, this one has byte 32 (a space)",
        "`get CLIENT KEY`",
    ),
    (
        b"del 0 a\x00\n",
        "6: a key has letters, digits and other visible ASCII characters, this one has byte 0",
        "`del CLIENT KEY`",
    ),
    (
        b"del 123456789012345678901 a\n",
        "6: the client has 21 digits, and a number has at most 19",
        "`del CLIENT KEY`",
    ),
    (
        b"put 0\n",
        "6: the key is missing",
        "`put CLIENT KEY =BODY`",
    ),
    (
        b"put x a =1\n",
        "6: the client is to be a number, and `x` is no digit",
        "`put CLIENT KEY =BODY`",
    ),
    (
        b"put 0 a\n",
        "6: the body is missing",
        "`put CLIENT KEY =BODY`",
    ),
    (
        b"put 0 a milk\n",
        "6: a body begins with `=`, as in `=milk`",
        "`put CLIENT KEY =BODY`",
    ),
    (
        b"put 0 a -\n",
        "6: a body begins with `=`, as in `=milk`",
        "`put CLIENT KEY =BODY`",
    ),
];

/// More of them.
const BODY_FORMS: [(&[u8], &str, &str); 9] = [
    (
        b"put 0 a =two words\n",
        "6: a body has letters, digits and other visible ASCII characters, this one has byte 32 (a space)",
        "`put CLIENT KEY =BODY`",
    ),
    (
        b"put 0  =x\n",
        "6: the key is missing; one space stands between two words",
        "`put CLIENT KEY =BODY`",
    ),
    (
        b"put 0 aaaaaaaaaaaaaaaaaaaa =x\n",
        "6: a key has at most 16 characters, this one has 20",
        "`put CLIENT KEY =BODY`",
    ),
    (b"admit 1\n", "6: the key is missing", "`admit STEP KEY`"),
    (
        b"admit one a\n",
        "6: the step is to be a number, and `o` is no digit",
        "`admit STEP KEY`",
    ),
    (
        b"evict  a\n",
        "6: the step is missing; one space stands between two words",
        "`evict STEP KEY`",
    ),
    (
        b"snap \n",
        "6: the step is missing; one space stands between two words",
        "`snap STEP`",
    ),
    (
        b"snap 1 2\n",
        "6: the step is to be a number, and byte 32 (a space) is no digit",
        "`snap STEP`",
    ),
    (
        b"stop soon\n",
        "6: the step is to be a number, and `s` is no digit",
        "`stop STEP` or `stop KIND COUNT`",
    ),
];

/// More of them.
const OTHER_FORMS: [(&[u8], &str, &str); 8] = [
    (
        b"stop getreq\n",
        "6: the count behind the kind of packet is missing",
        "`stop STEP` or `stop KIND COUNT`",
    ),
    (
        b"stop getreq x\n",
        "6: the count is to be a number, and `x` is no digit",
        "`stop STEP` or `stop KIND COUNT`",
    ),
    (
        b"picks\n",
        "6: only the first word is there",
        "`picks PICK PICK ..`",
    ),
    (
        b"picks 0,1\n",
        "6: a pick is to be a number, and `,` is no digit",
        "`picks PICK PICK ..`",
    ),
    (
        b"picks 0 x 1\n",
        "6: a pick is to be a number, and `x` is no digit",
        "`picks PICK PICK ..`",
    ),
    (
        b"picks 0  1\n",
        "6: a pick is missing; one space stands between two words",
        "`picks PICK PICK ..`",
    ),
    (
        b"picks 0 1 \n",
        "6: a pick is missing; one space stands between two words",
        "`picks PICK PICK ..`",
    ),
    (
        b"random -5\n",
        "6: the start number is to be a number, and `-` is no digit",
        "`random START`",
    ),
];

/// Lines behind a head with one client, and what is said of them.
const OTHERS: [(&[u8], &str); 7] = [
    (b"get 5 a\n", "6: client 5, but the workload has 1 (0 to 0)"),
    (
        b"put 0 a =x\nput 1 a =x\n",
        "7: client 1, but the workload has 1 (0 to 0)",
    ),
    (
        b"put 9999999999999999999 a =x\n",
        "6: client 9999999999999999999, but the workload has 1 (0 to 0)",
    ),
    (
        b"random 1\nget 0 a\nrandom 1\n",
        "8: a second start number; line 6 gives the first, and a workload has one",
    ),
    (
        b"stop writereqs 1\n",
        "6: no such kind of packet; the kinds are getreq, writereq, getrep, writerep, admit, peek, remove, snapstart, \
         snapread",
    ),
    (
        b"stop 1 2\n",
        "6: no such kind of packet; the kinds are getreq, writereq, getrep, writerep, admit, peek, remove, snapstart, \
         snapread",
    ),
    (
        b"get 0 a\nget 0 b\nget 0",
        "8: the last line does not end with a line feed",
    ),
];

/// The lines behind a head with one client.
fn with_head(alloc: Global, lines: &[u8]) -> Result<Vec<u8>, Fail> {
    let mut text = Vec::new(alloc);
    text.extend_from_slice(b"far 1\nclients 1\nservers 1\nslots 1\nhot 0\n")?;
    text.extend_from_slice(lines)?;
    Ok(text)
}

/// What is said where the orders that there are stand behind it.
fn with_orders(alloc: Global, words: &str) -> Result<String, Fail> {
    Ok(format!(in alloc; "{words}; {ORDERS}")?)
}

/// What is said where the form of the order stands behind it.
fn with_form(alloc: Global, words: &str, form: &str) -> Result<String, Fail> {
    Ok(format!(in alloc; "{words}; {FORM} {form}")?)
}

/// Whether this is said of the lines, behind a head with one client, and their form.
fn is_said(alloc: Global, lines: &[u8], words: &str, form: &str) -> Result<bool, Fail> {
    let due = with_form(alloc, words, form)?;
    Ok(said(alloc, &with_head(alloc, lines)?)?.as_str() == due.as_str())
}

#[test]
fn heads_in_words(rt: HostRuntime) -> Result<(), Fail> {
    for (text, words) in HEADS {
        assert_eq!(rt; said(rt.alloc(), text)?.as_str(), words);
    }
    Ok(())
}

#[test]
fn other_lines_in_words(rt: HostRuntime) -> Result<(), Fail> {
    let alloc = rt.alloc();
    for (lines, words) in OTHERS {
        assert_eq!(rt; said(alloc, &with_head(alloc, lines)?)?.as_str(), words);
    }
    Ok(())
}

#[test]
fn unknown_orders_in_words(rt: HostRuntime) -> Result<(), Fail> {
    let alloc = rt.alloc();
    for (lines, words) in UNKNOWN {
        let words = with_orders(alloc, words)?;
        assert_eq!(rt;
            said(alloc, &with_head(alloc, lines)?)?.as_str(),
            words.as_str()
        );
    }
    Ok(())
}

#[test]
fn first_forms_in_words(rt: HostRuntime) -> Result<(), Fail> {
    for (lines, words, form) in FIRST_FORMS {
        assert!(rt; is_said(rt.alloc(), lines, words, form)?);
    }
    Ok(())
}

#[test]
fn forms_of_keys_in_words(rt: HostRuntime) -> Result<(), Fail> {
    for (lines, words, form) in KEY_FORMS {
        assert!(rt; is_said(rt.alloc(), lines, words, form)?);
    }
    Ok(())
}

#[test]
fn forms_of_bodies_in_words(rt: HostRuntime) -> Result<(), Fail> {
    for (lines, words, form) in BODY_FORMS {
        assert!(rt; is_said(rt.alloc(), lines, words, form)?);
    }
    Ok(())
}

#[test]
fn other_forms_in_words(rt: HostRuntime) -> Result<(), Fail> {
    for (lines, words, form) in OTHER_FORMS {
        assert!(rt; is_said(rt.alloc(), lines, words, form)?);
    }
    Ok(())
}

/// Limits, and what is said of them.
const LIMITS: [(Limit, &str); 11] = [
    (Limit::Input, "the input has more bytes than are read"),
    (Limit::Clients, "more than 64 clients"),
    (Limit::Servers, "more than 16 servers"),
    (Limit::Slots, "more than 1024 slots"),
    (
        Limit::Hot,
        "the count at which a key grows hot is at most 65535",
    ),
    (Limit::Body, "a body has at most 256 bytes"),
    (Limit::Ops, "more than 50000 operations"),
    (Limit::Orders, "more than 1024 orders to admit and to evict"),
    (Limit::Snaps, "more than 64 orders to take a snapshot"),
    (Limit::Stops, "more than 64 orders to stop the switch"),
    (Limit::Picks, "more than 1000000 picks"),
];

#[test]
fn a_limit_in_words(rt: HostRuntime) -> Result<(), Fail> {
    for (limit, words) in LIMITS {
        let passed = Passed(limit);
        let text = format!(in rt.alloc(); "{passed}")?;
        assert_eq!(rt; text.as_str(), words);
    }
    Ok(())
}

/// Nothing is told of a line that is not there to be counted, nor of lines that have a form.
#[test]
fn lines_without_a_fault(rt: HostRuntime) {
    let text =
        b"far 1\nclients 1\nservers 1\nslots 1\nhot 0\nget 0 a\nrandom 1\nstop getreq 1\npicks 1 2\n".as_slice();
    for number in 0..10 {
        assert!(rt; explain(text, number).is_none());
    }
    assert!(rt; matches!(explain(text, 10), Some(LineReason::NoLine)));
}
