//! Which metrics a query may join.
ghost use Rattle.std.specs.Prelude.{◌≡◌, map, not, bytes_eq};
ghost use Rattle.std.specs.List.{list_any, list_all};
ghost use Rattle.serde_json.specs.View.{view};
ghost use Rattle.ak_query.specs.Json.{items_in, text_of as text_in};
ghost use Rattle.ak_query.specs.Shapes.{passes, may_stand, can_be_metric as could_be_metric, are_metrics as have_metrics};
ghost use Rattle.ak_query.specs.Shapes.{apart, is_join as has_join};

use crate::shapes::{are_texts, has_between, items, text_of};
use serde_json::Value;

// The most bytes of a name, and so of a metric.
const MAX_NAME: usize = 512;

// Whether the byte may stand in a metric.
fn may_stand_there(byte: u8) -> bool
    ensures { result ≡ may_stand byte }
{
    byte > b' ' && byte != b'=' && byte != b'|' && byte != 127
}

fn may_each_stand(bytes: &[u8]) -> bool
    ensures { result ≡ list_all may_stand bytes.now }
{
    bytes.iter().all(|byte| may_stand_there(*byte))
}

// Whether the text can be the metric of a series.
fn can_be_metric(text: &str) -> bool
    ensures { result ≡ could_be_metric text.now }
{
    let bytes = text.as_bytes();
    !bytes.is_empty() && bytes.len() <= MAX_NAME && bytes[0] != b'!' && may_each_stand(bytes)
}

fn are_each_metric(items: &[Value]) -> bool
    ensures { result ≡ list_all (λ v. could_be_metric (text_in (view v))) items.now }
{
    items.iter().all(|item| can_be_metric(text_of(item)))
}

fn are_metrics(value: &Value) -> bool
    ensures { result ≡ have_metrics (view value.now) }
{
    match items(value) {
        Some(items) => are_each_metric(items),
        None => false,
    }
}

// Whether no item is the same text.
fn is_new(text: &str, others: &[Value]) -> bool
    ensures { result ≡ not (list_any (bytes_eq text.now) (map (λ v. text_in (view v)) others.now)) }
{
    for other in others {
        if text == text_of(other) {
            return false;
        }
    }
    true
}

fn are_apart(items: &[Value]) -> bool
    ensures { result ≡ apart (map (λ v. text_in (view v)) items.now) }
{
    for (at, item) in items.iter().enumerate() {
        if !is_new(text_of(item), &items[at + 1..]) {
            return false;
        }
    }
    true
}

fn are_different(value: &Value) -> bool
    ensures { result ≡ passes (λ ds. apart (map text_in ds)) (items_in (view value.now)) }
{
    match items(value) {
        Some(items) => are_apart(items),
        None => false,
    }
}

/// Whether the value is an array of 2 to 32 metrics, no two alike.
pub(crate) fn is_join(value: &Value) -> bool
    ensures { result ≡ has_join (view value.now) }
{
    are_texts(value) && has_between(value, 2, 32) && are_metrics(value) && are_different(value)
}
