//! Inner nodes: references to nodes a level below, and their blocks.
#![tactic(auto)]

mod inner;
mod reference;
mod references;
#[cfg(test)]
mod tests;

pub use inner::{Inner, one_node};
pub use reference::Ref;
