//! The words that every layer shares: lists and texts, points, values, addresses, limits, what a query selects, and what
//! a session or a command is answered.
#![tactic(auto)]

mod digits;
mod filter;
mod limits;
mod point;
mod range;
mod refusal;
mod sequence;
mod stop;
mod text;
mod value;

pub use filter::Filter;
pub use limits::Limits;
pub use point::{Addr, Block, Point};
pub use range::Range;
pub use refusal::Refusal;
pub use sequence::{Bytes, Ids, Sequence, Texts};
pub use stop::{Line, Stop};
pub use text::Text;
pub use value::read_value;

#[cfg(test)]
mod tests;
