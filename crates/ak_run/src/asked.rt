//! What a message asks for.
use ak_base::{Bytes, Refusal, Sequence, Texts};

/// A list of values.
pub type Values = Sequence<i64>;

/// What a message asks for.
#[derive(Drop)]
pub enum Asked {
    /// Its text is refused: it asks for nothing.
    Refused(Refusal),
    /// Points of one time in nanoseconds: one for each name, with its value.
    Points {
        names: Texts,
        time: u64,
        values: Values,
    },
    /// The rows of all series of a metric.
    Rows(Bytes),
    /// A view is to be saved.
    Flush,
}
