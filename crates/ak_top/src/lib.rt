//! The top call: reads the words, does the command, and answers the status.
#![tactic(auto)]

mod laws;
mod top;

pub use laws::{flushes_stay, kept_disks_open, sound_disks_open};
pub use top::akl;
