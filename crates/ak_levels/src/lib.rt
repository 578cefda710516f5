//! References that wait, level by level, until a level is full.
#![tactic(auto)]

mod carries;
mod entry;
mod levels;
mod lifting;
mod list;
mod referring;
#[cfg(test)]
mod tests;

pub use carries::carry;
pub use entry::Entry;
pub use levels::Levels;
pub use lifting::{lift, refer_node};
pub use list::LevelsList;
pub use referring::refer;
