//! A row and its cells.
ghost use Rattle.std.specs.Prelude.{[]};
ghost use Rattle.ak_rows.specs.Lines.{IsLine};

/// The most cells of a row.
pub const MOST_CELLS: usize = 32;

/// A cell of a row.
#[derive(Clone, Copy, Debug, PartialEq, Eq, Drop)]
pub enum Cell {
    /// There is no point.
    Hole,
    /// So many units of `10^-scale`.
    Units(i128),
    /// A whole number.
    Number(u64),
}

/// A row: the place of its track in the tracks, a time in nanoseconds, and cells, of which the first `n` count.
#[derive(Clone, Copy, Debug, PartialEq, Eq, Drop)]
pub struct Row {
    /// The place of the track.
    pub track: u32,
    /// The time, in nanoseconds.
    pub time: u64,
    /// How many cells count.
    pub n: u32,
    /// The cells.
    pub cells: [Cell; MOST_CELLS],
}

impl Row {
    /// A row without cells.
    pub fn blank() -> Row
        ensures { IsLine result (record { track = 0; time = 0; cells = [] }) }
    {
        Row {
            track: 0,
            time: 0,
            n: 0,
            cells: [Cell::Hole; MOST_CELLS],
        }
    }
}
