//! Which call failed, and why.
use std::io;

/// A call of the host.
#[derive(Clone, Copy)]
pub enum Call {
    /// A file is made.
    Make(u32),
    /// A block of a file is read.
    Read(u32, u32),
    /// A block of a file is written.
    Write(u32, u32),
    /// A file is synced.
    Sync(u32),
    /// Standard input is read.
    Input,
    /// Standard output is written.
    Output,
}

/// A call that failed, and the system's error.
#[derive(Clone, Copy)]
pub struct Failure {
    pub call: Call,
    pub error: io::Error,
}
