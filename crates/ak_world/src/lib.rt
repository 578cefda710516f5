//! The world: what a store holds, and what messages and views make of it.
#![tactic(auto)]

mod contents;
mod points;
mod views;

pub use contents::{
    content_opened, content_with_leaf, content_with_name, content_with_ordinal, content_with_point,
};
pub use points::{points_come, points_stay};
pub use views::{views_go, worlds_stay_valid};
