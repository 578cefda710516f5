//! The metadata of a view: the limits, the live ordinals and their fills, and what is known of each series, with its spelling.
#![tactic(auto)]

mod entering;
mod error;
mod laws;
mod meta;
mod putting;
mod reading;
#[cfg(test)]
mod tests;

pub use error::MetaError;
pub use laws::{meta_stays_lawful, one_content, spelling_is_as_long};
pub use meta::{Meta, SeriesMeta};
