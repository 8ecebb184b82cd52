//! The reading of a line of a log.

/// One VDM or VDO sentence (IEC 61162-1:2010): a whole message, or a part of one.
#[derive(Clone, Copy)]
pub struct Sentence<'a> {
    /// The number of sentences of the message, 1 to 9.
    pub total: u8,
    /// The number of this sentence, counted from 1.
    pub number: u8,
    /// The sequential message identifier, 0 to 9, that the sentences of one message share.
    pub seq: Option<u8>,
    /// The ASCII letter or digit of the radio channel.
    pub channel: Option<u8>,
    /// The encapsulated message: six bits per byte, in the armour of IEC 61162-1; 1 to 1024 bytes, each of `0` to `W`
    /// or a backquote to `w`.
    pub payload: &'a [u8],
    /// The number of fill bits at the end of the payload, 0 to 5.
    pub fill: u8,
}

/// Why a line is not a sentence. If several causes apply, the first in this order counts.
#[derive(Clone, Copy, Debug, PartialEq, Eq)]
pub enum LineCause {
    /// There is no byte.
    Empty,
    /// There are more than 1024 bytes.
    Long,
    /// It begins with a backslash, but the tag block has another form than those that are read, or a wrong checksum.
    Tag,
    /// The text after the tag block does not begin like a `VDM` or `VDO` sentence.
    Other,
    /// A field of the sentence is malformed.
    Form,
    /// The checksum of the sentence is wrong.
    Sum,
    /// A byte of the payload does not stand for six bits.
    Armour,
}

/// A line without its tag block.
#[derive(Clone, Copy)]
pub enum Body<'a> {
    Sentence(Sentence<'a>),
    Dropped(LineCause),
}

/// The content of a line.
#[derive(Clone, Copy)]
pub struct Reading<'a> {
    /// The time of reception in seconds since the Unix epoch: the first `c:` field of the tag block. Numbers from 10^11
    /// on are milliseconds, rounded down.
    pub stamp: Option<u64>,
    pub body: Body<'a>,
}
