//! The node: a store that is open, its sessions, and what turns make of them.
#![tactic(auto)]

mod answers;
mod keeper;
mod kept;
mod look;
mod node;
mod opening;
mod puts;
mod reading;
mod rows;
mod session;
mod taken;

pub use node::{Node, Went};
