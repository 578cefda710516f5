//! A run: what messages ask for, what is made of it, and what sessions are told.
#![tactic(auto)]

mod asked;
mod asking;
mod bulks;
mod laws;
mod queries;
mod replies;
mod rows;
mod times;
mod values;

pub use asked::{Asked, Values};
pub use asking::{ask, ask_known};
pub use bulks::{begin_bulk, end_bulk};
pub use laws::{
    every_asking, every_run, one_asking, one_run, points_come_in_order, views_go_on,
    views_hold_accepted_points, views_hold_prefixes,
};
pub use replies::{write_bulk, write_refusal};
pub use rows::{is_of, write_rows};

#[cfg(test)]
mod tests;
