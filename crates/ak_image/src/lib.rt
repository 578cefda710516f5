//! What the blocks of a disk hold, and for which view they stand.
#![tactic(auto)]

mod laws;
mod planting;
mod steps;

pub use laws::{
    images_agree, laid_agrees, laid_images, none_damaged, one_node, one_view, sound_images,
};
pub use planting::{planted_agrees, planted_first, planted_with_leaf, planted_with_ordinal};
pub use steps::{laid_first, laid_with_leaf, laid_with_ordinal, laid_with_series};
