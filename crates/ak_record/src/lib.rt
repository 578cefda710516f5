//! The newest record of file 0, and its opening.
#![tactic(auto)]

mod barrier;
mod laws;
mod opening;
mod volumes;

pub use barrier::sync_all;
pub use laws::{frame_reads_back, one_newest, one_record, sound_is_store};
pub use opening::{Opened, open_newest};
