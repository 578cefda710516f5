//! What a query asks for, and the keys that it may have.
ghost use Rattle.std.specs.Prelude.{◌≡◌, ◌==◌, ◌&&◌, length, string_bytes};
ghost use Rattle.std.specs.List.{list_all};
ghost use Rattle.serde_json.specs.View.{view};
ghost use Rattle.ak_query.specs.Shapes.{is_text, is_aggregate as has_aggregate, is_functions as has_functions};
ghost use Rattle.ak_query.specs.Shapes.{is_group_member as has_group_member, is_group as has_group, is_join as has_join};
ghost use Rattle.ak_query.specs.Shapes.{is_range_member as has_range_member, is_bound_key as names_bound};
ghost use Rattle.ak_query.specs.Shapes.{is_filter_member as has_filter_member, is_where_member};
ghost use Rattle.ak_query.specs.Shapes.{is_output_member as has_output_member, is_object, is_kind_member as has_kind_member};
ghost use Rattle.ak_query.specs.Shapes.{is_choice_member as has_choice_member, is_form_member as has_form_member};
ghost use Rattle.ak_query.specs.Shapes.{is_member as has_member, kinds as kinds_in, is_shaped as has_shape};

use crate::joins::is_join;
use crate::shapes::{are_texts, has, has_between, is, is_text_or_number, is_texts, members};
use serde_json::{Map, Value};

fn each_of_aggregate(members: &Map<String, Value>) -> bool
    ensures { result ≡ list_all (λ e. is_text (view e.1)) members.now.entries }
{
    members.iter().all(|(_, func)| func.is_string())
}

fn is_one_text(members: &Map<String, Value>) -> bool
    ensures { result ≡ (length members.now.entries == 1) && list_all (λ e. is_text (view e.1)) members.now.entries }
{
    members.len() == 1 && each_of_aggregate(members)
}

fn is_aggregate(value: &Value) -> bool
    ensures { result ≡ has_aggregate (view value.now) }
{
    match members(value) {
        Some(members) => is_one_text(members),
        None => false,
    }
}

fn is_functions(value: &Value) -> bool
    ensures { result ≡ has_functions (view value.now) }
{
    value.is_string() || (are_texts(value) && has_between(value, 1, 32))
}

fn is_group_member(key: &str, value: &Value) -> bool
    ensures { result ≡ has_group_member key.now (view value.now) }
{
    (key == "metric" && value.is_string())
        || (key == "step" && is_text_or_number(value))
        || (key == "func" && is_functions(value))
}

fn each_of_group(members: &Map<String, Value>) -> bool
    ensures { result ≡ list_all (λ e. has_group_member (string_bytes e.0) (view e.1)) members.now.entries }
{
    members
        .iter()
        .all(|(key, value)| is_group_member(key.as_str(), value))
}

fn are_group_members(value: &Value) -> bool
    ensures { result ≡ is_object has_group_member (view value.now) }
{
    match members(value) {
        Some(members) => each_of_group(members),
        None => false,
    }
}

fn is_group(value: &Value) -> bool
    ensures { result ≡ has_group (view value.now) }
{
    are_group_members(value) && has(value, "metric") && has(value, "step") && has(value, "func")
}

fn is_range_member(key: &str, value: &Value) -> bool
    ensures { result ≡ has_range_member key.now (view value.now) }
{
    (key == "from" || key == "to") && is_text_or_number(value)
}

fn is_bound_key(key: &str) -> bool
    ensures { result ≡ names_bound key.now }
{
    key == "gt" || key == "ge" || key == "lt" || key == "le"
}

fn is_filter_member(key: &str, value: &Value) -> bool
    ensures { result ≡ has_filter_member key.now (view value.now) }
{
    is_bound_key(key) && (value.is_string() || value.is_i64())
}

fn is_output_member(key: &str, value: &Value) -> bool
    ensures { result ≡ has_output_member key.now (view value.now) }
{
    (key == "format" && (is(value, "csv") || is(value, "resp")))
        || (key == "timestamp" && (is(value, "raw") || is(value, "iso")))
}

fn each_of_range(members: &Map<String, Value>) -> bool
    ensures { result ≡ list_all (λ e. has_range_member (string_bytes e.0) (view e.1)) members.now.entries }
{
    members
        .iter()
        .all(|(key, value)| is_range_member(key.as_str(), value))
}

fn is_range(value: &Value) -> bool
    ensures { result ≡ is_object has_range_member (view value.now) }
{
    match members(value) {
        Some(members) => each_of_range(members),
        None => false,
    }
}

fn each_of_where(members: &Map<String, Value>) -> bool
    ensures { result ≡ list_all (λ e. is_where_member (string_bytes e.0) (view e.1)) members.now.entries }
{
    members.iter().all(|(_, value)| is_texts(value))
}

fn is_where(value: &Value) -> bool
    ensures { result ≡ is_object is_where_member (view value.now) }
{
    match members(value) {
        Some(members) => each_of_where(members),
        None => false,
    }
}

fn each_of_filter(members: &Map<String, Value>) -> bool
    ensures { result ≡ list_all (λ e. has_filter_member (string_bytes e.0) (view e.1)) members.now.entries }
{
    members
        .iter()
        .all(|(key, value)| is_filter_member(key.as_str(), value))
}

fn is_filter(value: &Value) -> bool
    ensures { result ≡ is_object has_filter_member (view value.now) }
{
    match members(value) {
        Some(members) => each_of_filter(members),
        None => false,
    }
}

fn each_of_output(members: &Map<String, Value>) -> bool
    ensures { result ≡ list_all (λ e. has_output_member (string_bytes e.0) (view e.1)) members.now.entries }
{
    members
        .iter()
        .all(|(key, value)| is_output_member(key.as_str(), value))
}

fn is_output(value: &Value) -> bool
    ensures { result ≡ is_object has_output_member (view value.now) }
{
    match members(value) {
        Some(members) => each_of_output(members),
        None => false,
    }
}

fn is_kind_member(key: &str, value: &Value) -> bool
    ensures { result ≡ has_kind_member key.now (view value.now) }
{
    (key == "select" && value.is_string())
        || (key == "aggregate" && is_aggregate(value))
        || (key == "group-aggregate" && is_group(value))
        || (key == "join" && is_join(value))
}

fn is_choice_member(key: &str, value: &Value) -> bool
    ensures { result ≡ has_choice_member key.now (view value.now) }
{
    (key == "range" && is_range(value))
        || (key == "where" && is_where(value))
        || (key == "filter" && is_filter(value))
        || (key == "group-by-tag" && is_texts(value))
}

fn is_form_member(key: &str, value: &Value) -> bool
    ensures { result ≡ has_form_member key.now (view value.now) }
{
    (key == "order-by" && (is(value, "series") || is(value, "time")))
        || ((key == "limit" || key == "offset") && value.is_u64())
        || (key == "output" && is_output(value))
}

fn is_member(key: &str, value: &Value) -> bool
    ensures { result ≡ has_member key.now (view value.now) }
{
    is_kind_member(key, value) || is_choice_member(key, value) || is_form_member(key, value)
}

fn each_of_query(members: &Map<String, Value>) -> bool
    ensures { result ≡ list_all (λ e. has_member (string_bytes e.0) (view e.1)) members.now.entries }
{
    members
        .iter()
        .all(|(key, value)| is_member(key.as_str(), value))
}

fn are_members(value: &Value) -> bool
    ensures { result ≡ is_object has_member (view value.now) }
{
    match members(value) {
        Some(members) => each_of_query(members),
        None => false,
    }
}

fn kinds(value: &Value) -> u8
    ensures { result ≡ kinds_in (view value.now) }
{
    u8::from(has(value, "select"))
        + u8::from(has(value, "aggregate"))
        + u8::from(has(value, "group-aggregate"))
        + u8::from(has(value, "join"))
}

/// Whether the value has the shape of a query, whatever its times, bounds and functions are.
pub(crate) fn is_shaped(value: &Value) -> bool
    ensures { result ≡ has_shape (view value.now) }
{
    are_members(value) && kinds(value) == 1 && !(has(value, "join") && has(value, "group-by-tag"))
}
