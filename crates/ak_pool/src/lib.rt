//! Frames for open leaves, in order of their last writing.
#![tactic(auto)]

mod laws;
mod links;
mod pool;
mod slot;

pub use laws::{given_leaves_others, moved_leaves_all, written_leaves_others};
pub use links::Link;
pub use pool::{Frame, Pool};

#[cfg(test)]
mod tests;
