//! Reads of blocks by their addresses, through a cache, and what a reader reaches.
#![tactic(auto)]

mod cached;
mod place;
mod reach;

pub use cached::Cached;
pub use reach::Reach;
