//! The outside of the store, as traits: a disk of files of blocks, and ports that give turns and are told bytes.
#![tactic(auto)]

mod host;

pub use ak_base::Block;
pub use host::{Disk, Failed, Host, Outside, Ports, Turn};
