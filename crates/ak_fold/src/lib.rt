//! Summaries of the selected points of one series, from the summaries of its inner nodes.
#![tactic(auto)]

mod adding;
mod folding;
mod whole;

pub use whole::fold;
