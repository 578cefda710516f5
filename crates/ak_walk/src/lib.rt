//! Walks through the points of one series within a range of time.
#![tactic(auto)]

mod finding;
mod laws;
mod running;
mod seeking;
mod walking;

pub use finding::find;
pub use laws::new_walks_have_all;
pub use seeking::seek;
pub use walking::Walk;
