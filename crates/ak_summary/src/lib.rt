//! Summaries of points: values of lists of points that can be put together.
#![tactic(auto)]

mod fold;
mod laws;
mod summary;

pub use fold::{Fold, value_of};
pub use laws::{
    computed_summary, joins_associate, joins_summarize, one_summary, summaries_keep_rules,
};
pub use summary::Summary;

#[cfg(test)]
mod tests;
