//! What tags are asked for.
use ak_base::{Sequence, Text, Texts};

/// A key of tags, and the values that are asked for.
#[derive(Drop)]
pub struct KeyValues {
    /// The key.
    pub key: Text,
    /// The values, of which a series is to have one at the key.
    pub values: Texts,
}

/// A list of keys, each with its values.
pub type Wheres = Sequence<KeyValues>;
