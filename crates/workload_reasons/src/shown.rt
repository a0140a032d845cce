use crate::orders::Verb;
use crate::reason::{
    BodyFault, FormFault, HeadFault, HeadLine, KeyFault, LineReason, NumberFault, NumberName,
    WordFault,
};
use far_base::{
    BODY_LIMIT, CLIENT_LIMIT, HOT_LIMIT, KEY_LENGTH, OP_LIMIT, ORDER_LIMIT, SERVER_LIMIT,
    SLOT_LIMIT, SNAP_LIMIT, STOP_LIMIT,
};
use far_text::NUMBER_DIGITS;
use std::fmt;
use workload::{Limit, PICK_LIMIT};

/// A byte as it is told of: a visible character as itself, any other by its number.
#[derive(Clone, Copy)]
struct Shown(u8);

impl fmt::Display for Shown {
    fn fmt<W: fmt::Write>(&self, f: &mut fmt::Formatter<W>) -> fmt::Result {
        let byte = self.0;
        match byte {
            9 => write!(f, "byte 9 (a tab)"),
            10 => write!(f, "byte 10 (a line feed)"),
            13 => write!(f, "byte 13 (a carriage return)"),
            32 => write!(f, "byte 32 (a space)"),
            33..=126 => {
                let letter = char::from(byte);
                write!(f, "`{letter}`")
            }
            128..=255 => write!(f, "byte {byte} (no ASCII character)"),
            _ => write!(f, "byte {byte}"),
        }
    }
}

impl fmt::Display for Verb {
    fn fmt<W: fmt::Write>(&self, f: &mut fmt::Formatter<W>) -> fmt::Result {
        match self {
            Verb::Get => write!(f, "`get CLIENT KEY`"),
            Verb::Put => write!(f, "`put CLIENT KEY =BODY`"),
            Verb::Del => write!(f, "`del CLIENT KEY`"),
            Verb::Admit => write!(f, "`admit STEP KEY`"),
            Verb::Evict => write!(f, "`evict STEP KEY`"),
            Verb::Snap => write!(f, "`snap STEP`"),
            Verb::Stop => write!(f, "`stop STEP` or `stop KIND COUNT`"),
            Verb::Picks => write!(f, "`picks PICK PICK ..`"),
            Verb::Random => write!(f, "`random START`"),
        }
    }
}

impl fmt::Display for NumberName {
    fn fmt<W: fmt::Write>(&self, f: &mut fmt::Formatter<W>) -> fmt::Result {
        match self {
            NumberName::Client => write!(f, "the client"),
            NumberName::Step => write!(f, "the step"),
            NumberName::Count => write!(f, "the count"),
            NumberName::Pick => write!(f, "a pick"),
            NumberName::Start => write!(f, "the start number"),
        }
    }
}

/// What is said behind the name of the number.
impl fmt::Display for NumberFault {
    fn fmt<W: fmt::Write>(&self, f: &mut fmt::Formatter<W>) -> fmt::Result {
        match *self {
            NumberFault::Empty => write!(f, "is missing; one space stands between two words"),
            NumberFault::Byte(byte) => {
                let shown = Shown(byte);
                write!(f, "is to be a number, and {shown} is no digit")
            }
            NumberFault::Digits(count) => write!(
                f,
                "has {count} digits, and a number has at most {NUMBER_DIGITS}"
            ),
            NumberFault::Zero => write!(f, "is to be a number with no zero in front of its digits"),
        }
    }
}

impl fmt::Display for KeyFault {
    fn fmt<W: fmt::Write>(&self, f: &mut fmt::Formatter<W>) -> fmt::Result {
        match *self {
            KeyFault::Empty => write!(f, "the key is missing; one space stands between two words"),
            KeyFault::Byte(byte) => {
                let shown = Shown(byte);
                write!(
                    f,
                    "a key has letters, digits and other visible ASCII characters, this one has {shown}"
                )
            }
            KeyFault::Length(count) => write!(
                f,
                "a key has at most {KEY_LENGTH} characters, this one has {count}"
            ),
        }
    }
}

impl fmt::Display for BodyFault {
    fn fmt<W: fmt::Write>(&self, f: &mut fmt::Formatter<W>) -> fmt::Result {
        match *self {
            BodyFault::Mark => write!(f, "a body begins with `=`, as in `=milk`"),
            BodyFault::Byte(byte) => {
                let shown = Shown(byte);
                write!(
                    f,
                    "a body has letters, digits and other visible ASCII characters, this one has {shown}"
                )
            }
        }
    }
}

impl fmt::Display for WordFault {
    fn fmt<W: fmt::Write>(&self, f: &mut fmt::Formatter<W>) -> fmt::Result {
        match *self {
            WordFault::Number(name, fault) => write!(f, "{name} {fault}"),
            WordFault::NoKey => write!(f, "the key is missing"),
            WordFault::Key(fault) => write!(f, "{fault}"),
            WordFault::NoBody => write!(f, "the body is missing"),
            WordFault::Body(fault) => write!(f, "{fault}"),
            WordFault::Kind => {
                write!(
                    f,
                    "no such kind of packet; the kinds are getreq, writereq, getrep, writerep, "
                )?;
                write!(f, "admit, peek, remove, snapstart, snapread")
            }
            WordFault::NoCount => write!(f, "the count behind the kind of packet is missing"),
        }
    }
}

impl fmt::Display for FormFault {
    fn fmt<W: fmt::Write>(&self, f: &mut fmt::Formatter<W>) -> fmt::Result {
        const ORDERS: &str =
            "after the five head lines come get, put, del, admit, evict, snap, stop, picks, random";
        match *self {
            FormFault::Empty => write!(f, "the line is empty; {ORDERS}"),
            FormFault::Order => write!(f, "no such order; {ORDERS}"),
            FormFault::OrderByte(byte) => {
                let shown = Shown(byte);
                write!(f, "no such order, its word has {shown}; {ORDERS}")
            }
            FormFault::Alone(verb) => write!(f, "only the first word is there; the form is {verb}"),
            FormFault::Words(verb, fault) => match fault {
                WordFault::Kind => write!(f, "{fault}"),
                _ => write!(f, "{fault}; the form is {verb}"),
            },
        }
    }
}

impl fmt::Display for HeadLine {
    fn fmt<W: fmt::Write>(&self, f: &mut fmt::Formatter<W>) -> fmt::Result {
        match self {
            HeadLine::Title => write!(f, "`far 1`"),
            HeadLine::Clients => write!(f, "`clients N`, with N from 1 to {CLIENT_LIMIT}"),
            HeadLine::Servers => write!(f, "`servers N`, with N from 1 to {SERVER_LIMIT}"),
            HeadLine::Slots => write!(f, "`slots N`, with N from 1 to {SLOT_LIMIT}"),
            HeadLine::Hot => write!(f, "`hot N`, with N from 0 to {HOT_LIMIT}"),
        }
    }
}

impl fmt::Display for LineReason {
    fn fmt<W: fmt::Write>(&self, f: &mut fmt::Formatter<W>) -> fmt::Result {
        match *self {
            LineReason::NoLine => write!(f, "the text has no such line"),
            LineReason::NoHead(head) => write!(
                f,
                "the text ends before this line, which is to be {head}"
            ),
            LineReason::NoLineEnd => write!(f, "the last line does not end with a line feed"),
            LineReason::Head(head, HeadFault::Text) => write!(f, "this line is to be {head}"),
            LineReason::Head(head, HeadFault::Byte(byte)) => {
                let shown = Shown(byte);
                write!(f, "this line has {shown}, and is to be {head}")
            }
            LineReason::Head(head, HeadFault::Number(fault)) => {
                write!(f, "N {fault}; this line is to be {head}")
            }
            LineReason::Head(head, HeadFault::Zero) => write!(
                f,
                "N is 0; this line is to be {head}"
            ),
            LineReason::Form(fault) => write!(f, "{fault}"),
            LineReason::NoClient(client, clients) => {
                write!(f, "client {client}, but the workload has {clients}")?;
                match clients.checked_sub(1) {
                    Some(last) => write!(f, " (0 to {last})"),
                    None => Ok(()),
                }
            }
            LineReason::Again(first) => write!(
                f,
                "a second start number; line {first} gives the first, and a workload has one"
            ),
        }
    }
}

/// A limit that was passed, in words: how many there may be at most.
#[derive(Clone, Copy)]
pub struct Passed(pub Limit);

impl fmt::Display for Passed {
    fn fmt<W: fmt::Write>(&self, f: &mut fmt::Formatter<W>) -> fmt::Result {
        match self.0 {
            Limit::Input => write!(f, "the input has more bytes than are read"),
            Limit::Clients => write!(f, "more than {CLIENT_LIMIT} clients"),
            Limit::Servers => write!(f, "more than {SERVER_LIMIT} servers"),
            Limit::Slots => write!(f, "more than {SLOT_LIMIT} slots"),
            Limit::Hot => write!(
                f,
                "the count at which a key grows hot is at most {HOT_LIMIT}"
            ),
            Limit::Body => write!(f, "a body has at most {BODY_LIMIT} bytes"),
            Limit::Ops => write!(f, "more than {OP_LIMIT} operations"),
            Limit::Orders => write!(f, "more than {ORDER_LIMIT} orders to admit and to evict"),
            Limit::Snaps => write!(f, "more than {SNAP_LIMIT} orders to take a snapshot"),
            Limit::Stops => write!(f, "more than {STOP_LIMIT} orders to stop the switch"),
            Limit::Picks => write!(f, "more than {PICK_LIMIT} picks"),
        }
    }
}
