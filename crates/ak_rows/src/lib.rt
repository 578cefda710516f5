//! The rows of a query.
#![tactic(auto)]

mod buckets;
mod feed;
mod laws;
mod order;
mod pages;
mod points;
mod row;
mod rows;
mod selecting;
mod selects;

pub use feed::Feed;
pub use laws::{first_are_all, members_begin, select_comes};
pub use row::{Cell, MOST_CELLS, Row};
pub use rows::Rows;
