//! The series of a store: their open leaves in memory, and their closed ones on the disk.
#![tactic(auto)]

mod appending;
mod closing;
mod forest;
mod saving;
mod writing;

pub use forest::{AddError, Forest};
