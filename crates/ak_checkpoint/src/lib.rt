//! Taking views: a view's frame is spelled into a buffer, and then written behind a gate. And making a store.
#![tactic(auto)]

mod checkpoint;
mod frame;
mod making;

pub use checkpoint::Checkpoint;
pub use making::make_store;
