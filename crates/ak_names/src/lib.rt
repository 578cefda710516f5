//! Names: what a text names, and the numbers of names.
#![tactic(auto)]

mod asked;
mod count;
mod error;
mod groups;
mod index;
mod joins;
mod laws;
mod memo;
mod naming;
mod parts;
mod read;
mod tags;
#[cfg(test)]
mod tests;
#[cfg(test)]
mod track_tests;
mod tracks;
mod wheres;

pub use count::metrics;
pub use error::NameError;
pub use index::Index;
pub use laws::{every_reading, one_reading};
pub use read::read_names;
pub use tracks::{Track, Tracks};
pub use wheres::{KeyValues, Wheres};
