//! What a query selects of a tree: windows of time, which parts of a tree they need, and how many nodes are read for it.
#![tactic(auto)]

mod laws;
mod part;
mod window;

pub use laws::{
    borders_are_few, borders_part, chosen_parts, chosen_whole, selected_is_chosen, summed_parts,
};
pub use part::{Part, part_of};
pub use window::Window;
