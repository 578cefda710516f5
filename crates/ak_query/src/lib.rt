//! Queries, and how they are read from JSON.
#![tactic(auto)]

mod copies;
mod functions;
mod joins;
mod json;
mod kinds;
mod laws;
mod pieces;
mod query;
mod read;
mod shapes;
#[cfg(test)]
mod tests;
mod times;

pub use laws::{every_query, one_query};
pub use query::{Func, Funcs, Kind, Query, QueryError};
pub use read::read_query;
