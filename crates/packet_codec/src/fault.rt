/// Why bytes spell no packet: the first fault from left to right. A field that is wholly there is
/// checked before the next one is looked at.
#[derive(Clone, Copy, Debug, PartialEq, Eq)]
pub enum BadPacket {
    /// A field is not wholly there.
    Short,
    /// The first byte is another version's.
    Version,
    /// The second byte is the number of no kind.
    Kind,
    /// A flag is neither 0 nor 1.
    Flag,
    /// Sixteen bytes are no key.
    Pad,
    /// A body is longer than its limit, or is absent and has a length above 0.
    Length,
    /// Bytes stand after the last field.
    Rest,
}
