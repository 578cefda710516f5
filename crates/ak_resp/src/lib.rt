//! The reader of a session's messages, over the whole grammar of the protocol.
#![tactic(auto)]

mod fault;
mod message;
mod puts;
mod resp;
mod spot;

pub use message::{Message, Part, PartKind, Parts, RespError};
pub use puts::{Lent, LentParts, LentValues, WholePut};
pub use resp::{Resp, every_reading, fault_stays, one_reading, one_spelling};

#[cfg(test)]
mod tests;
