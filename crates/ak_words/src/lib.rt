//! Reads the words of the command line.
#![tactic(auto)]

mod job;
mod laws;
mod number;
mod options;
mod read;
#[cfg(test)]
mod tests;

pub use job::{Command, Job, WordsError};
pub use laws::one_job;
pub use read::read_words;
