//! What a query holds at its keys.
ghost use Rattle.std.specs.Prelude.{◌≡◌, option_map, unwrap_or};
ghost use Rattle.serde_json.specs.View.{view};
ghost use Rattle.ak_query.specs.Json.{within as found_within};
ghost use Rattle.ak_query.specs.Pieces.{text_at as text_found_at, metric_of as metric_in, function_of as function_in};
ghost use Rattle.ak_query.specs.Pieces.{func_named as function_named, by_time_in, limit_in, offset_in, resp_in, iso_in};

use crate::query::Func;
use crate::shapes::{is, members, text_of};
use serde_json::Value;

/// The value of a key of an object within an object.
pub(crate) fn within<'v>(value: &'v Value, outer: &str, inner: &str) -> Option<&'v Value>
    ensures { option_map (λ v. view v.now) result ≡ found_within outer.now inner.now (view value.now) }
{
    match value.get(outer) {
        Some(found) => found.get(inner),
        None => None,
    }
}

/// The text at a key.
pub(crate) fn text_at<'v>(value: &'v Value, key: &str) -> &'v str
    ensures { result.now ≡ text_found_at key.now (view value.now) }
{
    match value.get(key) {
        Some(found) => text_of(found),
        None => "",
    }
}

/// The metric of an aggregate.
pub(crate) fn metric_of(value: &Value) -> &str
    ensures { result.now ≡ metric_in (view value.now) }
{
    match members(value) {
        Some(members) => match members.iter().next() {
            Some((metric, _)) => metric.as_str(),
            None => "",
        },
        None => "",
    }
}

/// The name of the function of an aggregate.
pub(crate) fn function_of(value: &Value) -> &str
    ensures { result.now ≡ function_in (view value.now) }
{
    match members(value) {
        Some(members) => match members.iter().next() {
            Some((_, function)) => text_of(function),
            None => "",
        },
        None => "",
    }
}

/// The function of this name.
pub(crate) fn func_named(name: &str) -> Option<Func>
    ensures { result ≡ function_named name.now }
{
    if name == "count" {
        Some(Func::Count)
    } else if name == "sum" {
        Some(Func::Sum)
    } else if name == "min" {
        Some(Func::Min)
    } else if name == "max" {
        Some(Func::Max)
    } else if name == "first" {
        Some(Func::First)
    } else if name == "last" {
        Some(Func::Last)
    } else {
        None
    }
}

/// Whether rows are ordered by time.
pub(crate) fn by_time(value: &Value) -> bool
    ensures { result ≡ by_time_in (view value.now) }
{
    match value.get("order-by") {
        Some(order) => is(order, "time"),
        None => false,
    }
}

/// How many rows are kept at most.
pub(crate) fn limit(value: &Value) -> Option<u64>
    ensures { result ≡ limit_in (view value.now) }
{
    match value.get("limit") {
        Some(limit) => limit.as_u64(),
        None => None,
    }
}

fn offset_found(value: &Value) -> Option<u64>
    ensures { unwrap_or result 0 ≡ offset_in (view value.now) }
{
    match value.get("offset") {
        Some(offset) => offset.as_u64(),
        None => None,
    }
}

/// How many rows are dropped.
pub(crate) fn offset(value: &Value) -> u64
    ensures { result ≡ offset_in (view value.now) }
{
    offset_found(value).unwrap_or(0)
}

/// Whether rows are written as RESP.
pub(crate) fn resp(value: &Value) -> bool
    ensures { result ≡ resp_in (view value.now) }
{
    match within(value, "output", "format") {
        Some(format) => is(format, "resp"),
        None => false,
    }
}

/// Whether times are written as dates.
pub(crate) fn iso(value: &Value) -> bool
    ensures { result ≡ iso_in (view value.now) }
{
    match within(value, "output", "timestamp") {
        Some(timestamp) => is(timestamp, "iso"),
        None => false,
    }
}
