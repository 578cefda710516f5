//! Faults of a stream.
ghost use Rattle.std.specs.Prelude.{◌≡◌};
ghost use Rattle.ak_resp.specs.Kinds.{told};

use ak_base::Refusal;

/// What a byte is with which no message goes on.
#[derive(Clone, Copy)]
pub enum Fault {
    BadKind,
    BadNumber,
    LongLine,
    BadEnd,
    LongBulk,
    BadShape,
}

impl Fault {
    /// What the session is told of it.
    pub fn told(self, at: u64) -> Refusal
        ensures { result ≡ told self at }
    {
        match self {
            Fault::BadKind => Refusal::BadKind { at },
            Fault::BadNumber => Refusal::BadNumber { at },
            Fault::LongLine => Refusal::LongLine { at },
            Fault::BadEnd => Refusal::BadEnd { at },
            Fault::LongBulk => Refusal::LongBulk { at },
            Fault::BadShape => Refusal::BadShape { at },
        }
    }
}
