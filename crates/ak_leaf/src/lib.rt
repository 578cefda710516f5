//! Leaves: their points, their size and their blocks.
#![tactic(auto)]

mod buffer;
mod point;
mod points;
#[cfg(test)]
mod tests;

pub use buffer::{LeafBuf, one_leaf};
