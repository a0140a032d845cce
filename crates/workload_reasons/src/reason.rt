use crate::orders::Verb;

/// What is wrong with a word that is to be a number.
#[derive(Clone, Copy)]
pub enum NumberFault {
    /// The word has no bytes.
    Empty,
    /// This byte of the word is no digit, and it is the first such.
    Byte(u8),
    /// The word has this many digits, and that is too many.
    Digits(usize),
    /// The word has a zero in front of other digits.
    Zero,
}

/// What is wrong with a word that is to be a key.
#[derive(Clone, Copy)]
pub enum KeyFault {
    /// The word has no bytes.
    Empty,
    /// This byte of the word may not stand in a key, and it is the first such.
    Byte(u8),
    /// The word has this many bytes, and that is too many.
    Length(usize),
}

/// What is wrong with a word that is to be a body.
#[derive(Clone, Copy)]
pub enum BodyFault {
    /// The word does not begin with `=`.
    Mark,
    /// This byte may not stand in a body, and it is the first such behind `=`.
    Byte(u8),
}

/// What a number of an order is.
#[derive(Clone, Copy)]
pub enum NumberName {
    /// the client of an operation
    Client,
    /// the step from which an order is due
    Step,
    /// the number of packets of a kind at which the switch stops
    Count,
    /// a listed pick
    Pick,
    /// the start number of the picks
    Start,
}

/// What is wrong with the words behind the first word of an order.
#[derive(Clone, Copy)]
pub enum WordFault {
    /// The word that is to be this number is none.
    Number(NumberName, NumberFault),
    /// No space, and so no key, stands behind the number.
    NoKey,
    /// The word that is to be a key is none.
    Key(KeyFault),
    /// No space, and so no body, stands behind the key.
    NoBody,
    /// The word that is to be a body is none.
    Body(BodyFault),
    /// The first of several words behind `stop` names no kind of packet.
    Kind,
    /// No space, and so no number, stands behind the kind of packet.
    NoCount,
}

/// What is wrong with a line behind the head.
#[derive(Clone, Copy)]
pub enum FormFault {
    /// The line has no bytes.
    Empty,
    /// The first word is no order.
    Order,
    /// The first word is no order, and has this byte, which is no visible character.
    OrderByte(u8),
    /// The line is this order and nothing else.
    Alone(Verb),
    /// The line is this order, with a fault in the words behind it.
    Words(Verb, WordFault),
}

/// A line of the head.
#[derive(Clone, Copy)]
pub enum HeadLine {
    Title,
    Clients,
    Servers,
    Slots,
    Hot,
}

/// What is wrong with a line of the head.
#[derive(Clone, Copy)]
pub enum HeadFault {
    /// The line does not begin as it is to, or is not the title.
    Text,
    /// The same, and the line has this byte, which is no visible character and no space.
    Byte(u8),
    /// What stands behind the name is no number.
    Number(NumberFault),
    /// The number is 0, and is to be 1 at least.
    Zero,
}

/// Why a line of a workload has none of the forms that may stand there.
#[derive(Clone, Copy)]
pub enum LineReason {
    /// The text has no such line, which is no line of the head.
    NoLine,
    /// The text has no such line, which is to be this line of the head.
    NoHead(HeadLine),
    /// The text ends within the line.
    NoLineEnd,
    /// The line is to be this line of the head, and has this fault.
    Head(HeadLine, HeadFault),
    /// The line stands behind the head, and has this fault.
    Form(FormFault),
    /// The line is an operation of this client, and line 2 tells of this many, counted from 0.
    NoClient(u64, u64),
    /// The line gives a start number, and the line with this number, which stands before it, gives the first one.
    Again(u32),
}
