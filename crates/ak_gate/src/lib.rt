//! Two slots of a file behind gates, of which one is written while the other stands.
#![tactic(auto)]

mod gate;
mod half;
mod opening;

pub use gate::Gate;
pub use half::Half;
