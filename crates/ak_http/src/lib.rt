//! The reader of requests of HTTP.
#![tactic(auto)]

mod head;
mod http;
mod request;
mod stage;

pub use http::{Http, fault_stays, one_reading, one_spelling};
pub use request::{HttpError, Request};

#[cfg(test)]
mod tests;
