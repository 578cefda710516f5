//! What stands in a name, and whether its tags are those that are asked for.
ghost use Rattle.std.specs.Prelude.{◌≡◌};
ghost use Rattle.ak_names.specs.Names.{key_of, value_of};
ghost use Rattle.ak_names.specs.Tracks.{is_among, metric_of, rest_of, meets as meets_test, admits as admits_test, asks};

use crate::wheres::{KeyValues, Wheres};
use ak_base::Texts;

/// What stands before the first space of a name.
pub fn metric(name: &str) -> &str
    ensures { result.now ≡ metric_of name.now }
{
    match name.split_once(' ') {
        Some((metric, _)) => metric,
        None => name,
    }
}

/// What stands behind the first space of a name.
pub fn rest(name: &str) -> &str
    ensures { result.now ≡ rest_of name.now }
{
    match name.split_once(' ') {
        Some((_, rest)) => rest,
        None => "",
    }
}

/// Whether a text is among others.
pub fn has_text(texts: &Texts, text: &str) -> bool
    ensures { result ≡ is_among text.now texts.now }
{
    texts.as_slice().iter().any(|t| text == t.as_str())
}

/// The key of a tag: what stands before its first `=`.
pub fn key(tag: &str) -> &str
    ensures { result.now ≡ key_of tag.now }
{
    match tag.split_once('=') {
        Some((key, _)) => key,
        None => tag,
    }
}

// The value of a tag: what stands behind its first `=`.
pub fn value(tag: &str) -> &str
    ensures { result.now ≡ value_of tag.now }
{
    match tag.split_once('=') {
        Some((_, value)) => value,
        None => "",
    }
}

// Whether a tag has this key and one of its values.
fn is_asked(asked: &KeyValues, tag: &str) -> bool
    ensures { result ≡ asks asked.now tag.now }
{
    key(tag) == asked.key.as_str() && has_text(&asked.values, value(tag))
}

// Whether one of the tags has this key and one of its values.
fn meets(asked: &KeyValues, rest: &str) -> bool
    ensures { result ≡ meets_test asked.now rest.now }
{
    rest.split(' ')
        .filter(|tag| !tag.is_empty())
        .any(|tag| is_asked(asked, tag))
}

/// Whether of each key that is asked for one of the tags has one of the values.
pub fn admits(wheres: &Wheres, rest: &str) -> bool
    ensures { result ≡ admits_test wheres.now rest.now }
{
    wheres.as_slice().iter().all(|asked| meets(asked, rest))
}
