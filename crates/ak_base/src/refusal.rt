//! What a message is refused by.
ghost use Rattle.std.specs.Prelude.{◌≡◌, ◌++◌, OnOk};
ghost use Rattle.ak_base.specs.Refusals.{code_of, refusal_text};

use crate::sequence::Bytes;
use std::alloc::{AllocError, Global};

/// Why a session's message is refused. A place is counted from 0 at the session's first byte.
#[derive(Clone, Copy, Debug, PartialEq, Eq, Drop)]
pub enum Refusal {
    /// A part begins with a byte other than those of the four kinds.
    BadKind { at: u64 },
    /// A number line breaks its grammar.
    BadNumber { at: u64 },
    /// A line has more than 4096 bytes.
    LongLine { at: u64 },
    /// A line or a bulk ends otherwise than with CR LF.
    BadEnd { at: u64 },
    /// A bulk is longer than 65,536 bytes.
    LongBulk { at: u64 },
    /// A part stands where its kind isn't allowed.
    BadShape { at: u64 },
    /// The session ended inside a message.
    Cut,
    /// All sessions are taken.
    TooMany,
    /// The head of a request can't be read.
    BadHead,
    /// The length of a request can't be read.
    BadLength,
    /// The text names nothing.
    BadName,
    /// The text is no time.
    BadTime,
    /// The text is no value.
    BadValue,
    /// The value is out of range.
    ValueRange,
    /// The time is out of range.
    TimeRange,
    /// The time is before the last of the series.
    Late { last: u64 },
    /// The metadata with the message would need more bytes than there is room for.
    MetaFull { need: u64, room: u64 },
    /// The number of values isn't the number of metrics.
    CountsDiffer,
    /// There is no such control.
    NoControl,
    /// The message is of a kind that isn't built.
    NotBuilt,
    /// The query isn't JSON.
    NotJson,
    /// The query has another shape.
    BadQuery,
    /// A time or a step of the query can't be read.
    BadRange,
    /// There is no such function.
    BadFunc,
    /// The answer would be longer than 67,108,864 bytes.
    TooLong { length: u64 },
}

impl Refusal {
    /// The number that the session is told.
    pub fn code(&self) -> u8
        ensures { result ≡ code_of self.now }
    {
        match self {
            Refusal::BadKind { .. } => 10,
            Refusal::BadNumber { .. } => 11,
            Refusal::LongLine { .. } => 12,
            Refusal::BadEnd { .. } => 13,
            Refusal::LongBulk { .. } => 14,
            Refusal::BadShape { .. } => 15,
            Refusal::Cut => 16,
            Refusal::TooMany => 17,
            Refusal::BadHead => 18,
            Refusal::BadLength => 19,
            Refusal::BadName => 20,
            Refusal::BadTime => 21,
            Refusal::BadValue => 22,
            Refusal::ValueRange => 23,
            Refusal::TimeRange => 24,
            Refusal::Late { .. } => 25,
            Refusal::MetaFull { .. } => 26,
            Refusal::CountsDiffer => 27,
            Refusal::NoControl => 28,
            Refusal::NotBuilt => 29,
            Refusal::NotJson => 30,
            Refusal::BadQuery => 31,
            Refusal::BadRange => 32,
            Refusal::BadFunc => 33,
            Refusal::TooLong { .. } => 35,
        }
    }

    /// Appends the text that the session is told behind the number. After an `Err` a part of it may stand there.
    pub fn write(&self, alloc: Global, into: &mut Bytes) -> Result<(), AllocError>
        ensures { OnOk result (into.new ≡ into.old ++ refusal_text self.now) }
    {
        match self {
            Refusal::BadKind { at } => into.extend_counted(alloc, b"bad type byte at ", *at),
            Refusal::BadNumber { at } => into.extend_counted(alloc, b"bad number at ", *at),
            Refusal::LongLine { at } => into.extend_counted(alloc, b"long line at ", *at),
            Refusal::BadEnd { at } => into.extend_counted(alloc, b"bad line end at ", *at),
            Refusal::LongBulk { at } => into.extend_counted(alloc, b"long bulk at ", *at),
            Refusal::BadShape { at } => into.extend_counted(alloc, b"wrong shape at ", *at),
            Refusal::Cut => into.extend(alloc, b"input ended inside a message"),
            Refusal::TooMany => into.extend(alloc, b"too many sessions"),
            Refusal::BadHead => into.extend(alloc, b"bad head"),
            Refusal::BadLength => into.extend(alloc, b"bad length"),
            Refusal::BadName => into.extend(alloc, b"bad name"),
            Refusal::BadTime => into.extend(alloc, b"bad timestamp"),
            Refusal::BadValue => into.extend(alloc, b"bad value"),
            Refusal::ValueRange => into.extend(alloc, b"value out of range"),
            Refusal::TimeRange => into.extend(alloc, b"timestamp out of range"),
            Refusal::Late { last } => into.extend_counted(alloc, b"late, last ", *last),
            Refusal::MetaFull { need, room } => {
                into.extend_twice_counted(alloc, b"metadata full, need ", *need, b" room ", *room)
            }
            Refusal::CountsDiffer => into.extend(alloc, b"counts differ"),
            Refusal::NoControl => into.extend(alloc, b"unknown control"),
            Refusal::NotBuilt => into.extend(alloc, b"not built"),
            Refusal::NotJson => into.extend(alloc, b"not JSON"),
            Refusal::BadQuery => into.extend(alloc, b"bad query"),
            Refusal::BadRange => into.extend(alloc, b"bad time"),
            Refusal::BadFunc => into.extend(alloc, b"unknown function"),
            Refusal::TooLong { length } => into.extend_counted(
                alloc,
                b"answer too long, ",
                *length,
            ),
        }
    }
}
