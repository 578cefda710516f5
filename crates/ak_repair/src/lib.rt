//! What waits of each series in memory, rebuilt from its rescue addresses as a store is opened.
#![tactic(auto)]

mod following;
mod repairing;
mod walking;

pub use repairing::repair;
pub use walking::live_leaves;
