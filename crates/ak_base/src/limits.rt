//! The limits of a store.

/// The limits of a store, fixed when it is made.
#[derive(Clone, Copy, Debug, PartialEq, Eq, Drop)]
pub struct Limits {
    /// Volumes: 2 to 64.
    pub volumes: u32,
    /// Blocks of a volume: 16 to 1,048,576.
    pub blocks: u32,
    /// Blocks of a slot of the metadata: 1 to 4096.
    pub slot: u32,
    /// Frames for open leaves: 1 to 4096.
    pub pool: u32,
    /// Leaves closed for each view: 1 to 65,536.
    pub every: u32,
    /// Decimal places of a value: 0 to 9.
    pub scale: u32,
}

impl Limits {
    /// The limits of a store for which none are given.
    pub const DEFAULT: Limits = Limits {
        volumes: 4,
        blocks: 4096,
        slot: 256,
        pool: 256,
        every: 16,
        scale: 6,
    };

    /// The limits of a store in memory.
    pub const SCRATCH: Limits = Limits {
        volumes: 2,
        blocks: 256,
        slot: 16,
        pool: 64,
        every: 16,
        scale: 0,
    };
}
