//! Tracks: which series the rows of a query are made from.
use ak_base::{Ids, Sequence, Text};

/// A name, and the numbers of the series under it. `u32::MAX` stands for a metric of a join that has no series here.
#[derive(Drop)]
pub struct Track {
    /// The name.
    pub name: Text,
    /// The numbers of the series.
    pub members: Ids,
}

/// A list of tracks.
pub type Tracks = Sequence<Track>;
