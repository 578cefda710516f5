//! The shape of a query.
ghost use Rattle.std.specs.Prelude.{◌≡◌, ◌||◌, map, option_map};
ghost use Rattle.std.specs.List.{list_all};
ghost use Rattle.serde_json.specs.View.{view};
ghost use Rattle.ak_query.specs.Json.{items_in, members_in, seen, text_of as text_in};
ghost use Rattle.ak_query.specs.Shapes.{has as has_key, is_text, is as is_this, is_number, is_count, is_whole};
ghost use Rattle.ak_query.specs.Shapes.{are_texts as each_text, has_from_to, is_texts as either_texts};

use serde_json::{Map, Value};

fn vector(value: &Value) -> Option<&Vec<Value>>
    ensures { option_map (λ v. map view v.now.items) result ≡ items_in (view value.now) }
{
    value.as_array()
}

/// The items of an array.
pub(crate) fn items(value: &Value) -> Option<&[Value]>
    ensures { option_map (λ v. map view v.now) result ≡ items_in (view value.now) }
{
    match vector(value) {
        Some(items) => Some(items.as_slice()),
        None => None,
    }
}

/// The members of an object.
pub(crate) fn members(value: &Value) -> Option<&Map<String, Value>>
    ensures { option_map (λ m. seen m.now.entries) result ≡ members_in (view value.now) }
{
    value.as_object()
}

/// The text that the value is, and the empty text where it is none.
pub(crate) fn text_of(value: &Value) -> &str
    ensures { result.now ≡ text_in (view value.now) }
{
    match value.as_str() {
        Some(text) => text,
        None => "",
    }
}

/// Whether an object has the key.
pub(crate) fn has(value: &Value, key: &str) -> bool
    ensures { result ≡ has_key key.now (view value.now) }
{
    value.get(key).is_some()
}

/// Whether the value is this text.
pub(crate) fn is(value: &Value, text: &str) -> bool
    ensures { result ≡ is_this text.now (view value.now) }
{
    match value.as_str() {
        Some(found) => found == text,
        None => false,
    }
}

pub(crate) fn is_text_or_number(value: &Value) -> bool
    ensures { result ≡ is_text (view value.now) || is_number (view value.now) }
{
    value.is_string() || value.is_number()
}

fn are_each_text(items: &[Value]) -> bool
    ensures { result ≡ list_all (λ v. is_text (view v)) items.now }
{
    items.iter().all(|item| item.is_string())
}

pub(crate) fn are_texts(value: &Value) -> bool
    ensures { result ≡ each_text (view value.now) }
{
    match items(value) {
        Some(items) => are_each_text(items),
        None => false,
    }
}

pub(crate) fn has_between(value: &Value, least: usize, most: usize) -> bool
    ensures { result ≡ has_from_to least most (view value.now) }
{
    match items(value) {
        Some(items) => least <= items.len() && items.len() <= most,
        None => false,
    }
}

pub(crate) fn is_texts(value: &Value) -> bool
    ensures { result ≡ either_texts (view value.now) }
{
    value.is_string() || are_texts(value)
}
