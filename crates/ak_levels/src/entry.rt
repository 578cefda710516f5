//! What a query sees of one series.
use crate::levels::Levels;
use ak_leaf::LeafBuf;

/// A series as a query sees it.
#[derive(Clone, Copy)]
pub struct Entry<'a> {
    /// The number of the series.
    pub series: u32,
    /// How many leaves it has closed.
    pub leaves: u64,
    /// The references that wait at each level.
    pub levels: &'a Levels,
    /// The open leaf, where there is one.
    pub tail: Option<&'a LeafBuf>,
}
