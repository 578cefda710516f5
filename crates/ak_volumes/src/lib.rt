//! Volumes: where groups of blocks are placed, and which addresses are live.
#![tactic(auto)]

mod laws;
mod volumes;

pub use laws::{files_are_apart, live_after_fill, live_after_switch, ordinals_stay_lawful};
pub use volumes::{Place, Volumes};

#[cfg(test)]
mod tests;
