//! Queries.
ghost use Rattle.std.specs.Prelude.{◌≡◌, ◌≢◌, ◌↔◌, ℕ, List, IsTrue, IfOk, IfSome, IfNone};
ghost use Rattle.std.specs.List.{AllByRecursion};
ghost use Rattle.ak_run.specs.Asking.{IsMetricByte, IsSelected, query_text, QueryAsks};

use crate::asked::Asked;
use ak_base::{Bytes, Refusal};
use std::alloc::{AllocError, Global};

// The most bytes of a metric.
const MAX_METRIC: usize = 512;

// Whether the byte may stand in a metric.
fn is_metric_byte(byte: u8) -> bool
    ensures { IsTrue result ↔ IsMetricByte byte }
{
    byte.is_ascii_alphanumeric() || byte == b'.' || byte == b'_' || byte == b'-'
}

// Whether each byte may stand in a metric.
fn are_metric_bytes(text: &[u8]) -> bool
    ensures { IsTrue result ↔ AllByRecursion IsMetricByte text.now }
{
    for byte in text {
        if !is_metric_byte(*byte) {
            return false;
        }
    }
    true
}

// Whether the text can be selected.
fn is_selected(text: &[u8]) -> bool
    ensures { IsTrue result ↔ IsSelected text.now }
{
    !text.is_empty() && text.len() <= MAX_METRIC && are_metric_bytes(text)
}

// What stands in place of the metric.
fn middle(text: &[u8]) -> Option<&[u8]>
    ensures some { IfSome result (λ metric. text.now ≡ query_text metric.now) }
    ensures none { IfNone result ((metric : List ℕ) → text.now ≢ query_text metric) }
{
    text.strip_prefix(b"{\"select\":\"")?.strip_suffix(b"\"}")
}

// The metric that a query selects.
fn selected(text: &[u8]) -> Option<&[u8]>
    ensures some { IfSome result (λ metric. IsSelected metric.now) }
    ensures text { IfSome result (λ metric. text.now ≡ query_text metric.now) }
    ensures none { IfNone result ((metric : List ℕ) → IsSelected metric → text.now ≢ query_text metric) }
{
    let metric = middle(text)?;
    if is_selected(metric) {
        Some(metric)
    } else {
        None
    }
}

/// What a query of this text asks for: the rows of a metric where it is `{"select":"M"}`, with M of 1 to 512 letters,
/// digits, points, low lines and hyphens.
pub fn ask_query(alloc: Global, text: &[u8]) -> Result<Asked, AllocError>
    ensures { IfOk result (λ asked. QueryAsks text.now asked) }
{
    match selected(text) {
        Some(selected) => {
            let mut metric = Bytes::new(alloc);
            metric.extend(alloc, selected)?;
            Ok(Asked::Rows(metric))
        }
        None => Ok(Asked::Refused(Refusal::NotBuilt)),
    }
}
