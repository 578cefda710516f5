//! Times and steps: moments as nanoseconds since the beginning of 1970, in UTC.
#![tactic(auto)]

mod civil;
mod digits;
mod step;
mod text;
mod time;

pub use step::read_step;
pub use text::iso;
pub use time::read_time;

#[cfg(test)]
mod tests;
