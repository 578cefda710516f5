//! A frame as the pool keeps it.
use ak_leaf::LeafBuf;

/// What is kept of a frame, which stands at its number.
#[derive(Drop)]
pub struct Slot {
    /// The series, where the frame is used.
    pub series: u32,
    /// The points of the series's open leaf, where the frame is used.
    pub leaf: LeafBuf,
}
