//! A host in memory, which records each call and tells its contents.
#![tactic(auto)]

mod call;
mod drive;
mod heard;
mod host;
mod mem_turn;

pub use call::{Call, SavedBlock};
pub use drive::{Cell, MemFile, Tear};
pub use heard::{Heard, PortBytes};
pub use host::{ImageError, MemHost};
pub use mem_turn::MemTurn;

#[cfg(test)]
mod tests;
