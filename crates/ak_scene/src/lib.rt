//! What a query goes through: one series, its tree on the disk and what waits of it in memory.
#![tactic(auto)]

mod counting;
mod laws;
mod reading;

pub use counting::made;
pub use laws::{planted_entries_fit, unspelled_nodes_are_damaged};
pub use reading::read_refs;
