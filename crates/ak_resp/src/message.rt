//! What a session says.
use ak_base::{Bytes, Refusal, Sequence};
use std::alloc::AllocError;

/// How a part is written.
#[derive(Clone, Copy, Debug, PartialEq, Eq, Drop)]
pub enum PartKind {
    /// `+` and a line.
    Simple,
    /// `:` and a number, which may have a sign.
    Integer,
    /// `$`, a length, and so many bytes of any kind.
    Bulk,
}

/// A part of a message: how it is written, and its content as it is written, an integer's sign and digits too.
#[derive(Drop)]
pub struct Part {
    pub kind: PartKind,
    pub bytes: Bytes,
}

/// A list of parts.
pub type Parts = Sequence<Part>;

/// A message of a session.
#[derive(Drop)]
pub enum Message {
    /// Points of one time: one value, or those of an array, at most 64.
    Put {
        name: Part,
        time: Part,
        values: Parts,
    },
    /// A query, which is JSON or not.
    Query(Part),
    /// All points are to be written out.
    Flush,
    /// A control of another name.
    Unknown,
}

/// Why no message was read.
#[derive(Clone, Copy, Debug, PartialEq, Eq, Drop)]
pub enum RespError {
    /// The stream has a fault: no further message of it is read.
    Refused(Refusal),
    /// There is no memory. The reader is given up.
    Memory,
}

impl From<AllocError> for RespError {
    ghost from_gives = { λ _ e. e ≡ Memory };

    ghost use Rattle.std.specs.Prelude.{◌≡◌};
    ghost use Rattle.ak_resp.specs.declared.message.RespError.TheVariants.{Memory};

    fn from(_error: AllocError) -> Self {
        RespError::Memory
    }
}
