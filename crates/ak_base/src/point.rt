//! Points of series, and blocks and their addresses.

/// A point of a series.
#[derive(Clone, Copy, Debug, PartialEq, Eq, Drop)]
pub struct Point {
    /// Nanoseconds since 1970.
    pub ts: u64,
    /// Units of `10^-scale`.
    pub value: i64,
}

/// The address of a block: `ordinal * 2^32 + index`. `u64::MAX` means none.
#[derive(Clone, Copy, Debug, PartialEq, Eq, Drop)]
pub struct Addr(pub u64);

/// A block of a file.
pub type Block = [u8; 4096];
