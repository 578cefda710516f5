//! The names of tracks whose series are grouped by tags.
ghost use Rattle.std.specs.Prelude.{◌≡◌, ◌++◌, ◌∷◌, ℕ, List, [], Option, Some, None, filter, string_bytes, IfOk, OnOk, MatchOption};
ghost use Rattle.ak_names.specs.Names.{key_of};
ghost use Rattle.ak_names.specs.Tracks.{spelled_tags, kept_tags, track_name as track_text, is_among};

use crate::asked::{has_text, key, metric, rest};
use ak_base::Texts;
use std::alloc::{AllocError, Global};

// A tag more, where its key is listed.
fn push_tag(text: &mut String, keys: &Texts, tag: &str) -> Result<(), AllocError>
    ensures { OnOk result (string_bytes text.new ≡ string_bytes text.old ++ spelled_tags (filter (λ t. is_among (key_of t) keys.now) (tag.now ∷ []))) }
{
    if !has_text(keys, key(tag)) {
        return Ok(());
    }
    text.push_str(" ")?;
    text.push_str(tag)
}

// A space and a tag more, of each tag whose key is listed.
fn push_tags(text: &mut String, keys: &Texts, name: &str) -> Result<(), AllocError>
    ensures { OnOk result (string_bytes text.new ≡ string_bytes text.old ++ spelled_tags (kept_tags keys.now name.now)) }
{
    for tag in rest(name).split(' ').filter(|word| !word.is_empty()) {
        push_tag(text, keys, tag)?;
    }
    Ok(())
}

// The name of the track of a series whose listed tags make it.
fn short_name(alloc: Global, name: &str, keys: &Texts) -> Result<String, AllocError>
    ensures { IfOk result (λ text. string_bytes text ≡ track_text (Some keys.now) name.now) }
{
    let mut text = String::from_str(alloc, metric(name))?;
    push_tags(&mut text, keys, name)?;
    Ok(text)
}

/// The name of the track of a series: its own, or its metric and those of its tags whose keys are listed.
pub fn track_name(alloc: Global, name: &str, tags: Option<&Texts>) -> Result<String, AllocError>
    ensures { (keys : Option (List (List ℕ))) → MatchOption tags.entry (keys ≡ None) (λ t. keys ≡ Some t.now) → IfOk result (λ text. string_bytes text ≡ track_text keys name.now) }
{
    match tags {
        Some(keys) => short_name(alloc, name, keys),
        None => String::from_str(alloc, name),
    }
}
