//! The times, the step and the bounds of a query.
ghost use Rattle.std.specs.Prelude.{◌≡◌, ◌↔◌, ◌^◌, ◌<◌, ◌≤◌, ℕ, ℤ, pos, ◌*ℤ◌, codes};
ghost use Rattle.std.specs.Prelude.{Option, Some, IfSome, IfNone, option_map, option_and_then};
ghost use Rattle.serde_json.specs.Find.{as_number, as_i64};
ghost use Rattle.serde_json.specs.View.{view};
ghost use Rattle.ak_base.specs.Values.{IsValue, ReadsValue};
ghost use Rattle.ak_time.specs.Steps.{ReadsStep};
ghost use Rattle.ak_time.specs.Times.{ReadsTime};
ghost use Rattle.ak_base.specs.declared.filter.Filter.{Filter as TheFilter};
ghost use Rattle.ak_base.specs.declared.range.Range.{Range as TheRange};
ghost use Rattle.ak_query.specs.Json.{within as found_within};
ghost use Rattle.ak_query.specs.Reads.{IsTime, IsStep, FromIs, ToIs, is_back as goes_back, RangeIs, StepIs, step_in};
ghost use Rattle.ak_query.specs.Reads.{IsBound, BoundIs, FilterIs};

use crate::pieces::within;
use ak_base::{Filter, Range, read_value};
use ak_time::{read_step, read_time};
use serde_json::Value;

fn read_moment(text: &str) -> Option<u64>
    ensures { (t : ℕ) → (result ≡ Some t) ↔ (ReadsTime text.now (pos t) × (t < 2 ^ 64)) }
{
    read_time(text.as_bytes()).ok()
}

fn read_bound(text: &str, scale: u32) -> Option<i64>
    requires { scale ≤ 9 }
    ensures { (v : ℤ) → (result ≡ Some v) ↔ (ReadsValue text.now scale v × IsValue v) }
{
    read_value(text.as_bytes(), scale).ok()
}

fn read_span(text: &str) -> Option<u64>
    ensures { (n : ℕ) → (result ≡ Some n) ↔ (ReadsStep text.now n × (1 ≤ n) × (n < 2 ^ 64)) }
{
    read_step(text.as_bytes())
}

fn time_of(value: &Value) -> Option<u64>
    ensures { (t : ℕ) → (result ≡ Some t) ↔ IsTime (view value.now) t }
{
    match value.as_str() {
        Some(text) => read_moment(text),
        None => value.as_u64(),
    }
}

fn step_of(value: &Value) -> Option<u64>
    ensures { (n : ℕ) → (result ≡ Some n) ↔ IsStep (view value.now) n }
{
    match value.as_str() {
        Some(text) => read_span(text),
        None => match value.as_u64() {
            Some(0) => None,
            step => step,
        },
    }
}

// So many units of 10^-scale.
fn units_of(whole: i64, scale: u32) -> Option<i64>
    requires { scale ≤ 9 }
    ensures { (v : ℤ) → (result ≡ Some v) ↔ ((v ≡ whole *ℤ pos (10 ^ scale)) × IsValue v) }
{
    whole.checked_mul(10_i64.pow(scale))
}

// The whole number that a value is.
fn whole_in(value: &Value) -> Option<i64>
    ensures found { result ≡ option_and_then as_i64 (as_number (view value.now)) }
    ensures small { IfSome result (λ i. IsValue i) }
{
    value.as_i64()
}

fn bound_of(value: &Value, scale: u32) -> Option<i64>
    requires { scale ≤ 9 }
    ensures { (v : ℤ) → (result ≡ Some v) ↔ IsBound scale (view value.now) v }
{
    match value.as_str() {
        Some(text) => read_bound(text, scale),
        None => match whole_in(value) {
            Some(whole) => units_of(whole, scale),
            None => None,
        },
    }
}

fn from_in(value: &Value) -> Option<u64>
    ensures { (t : ℕ) → (result ≡ Some t) ↔ FromIs (found_within (codes "range") (codes "from") (view value.now)) t }
{
    match within(value, "range", "from") {
        Some(from) => time_of(from),
        None => Some(0),
    }
}

fn to_in(value: &Value) -> Option<Option<u64>>
    ensures { (to : Option ℕ) → (result ≡ Some to) ↔ ToIs (found_within (codes "range") (codes "to") (view value.now)) to }
{
    match within(value, "range", "to") {
        Some(to) => match time_of(to) {
            Some(to) => Some(Some(to)),
            None => None,
        },
        None => Some(None),
    }
}

fn is_back(from: u64, to: Option<u64>) -> bool
    ensures { result ≡ goes_back from to }
{
    match to {
        Some(to) => to < from,
        None => false,
    }
}

/// The range of a query. `None` where a time of it can't be read.
pub(crate) fn range(value: &Value) -> Option<Range>
    ensures { (r : TheRange) → (result ≡ Some r) ↔ RangeIs (view value.now) r }
{
    let from = from_in(value)?;
    let to = to_in(value)?;
    Some(Range {
        from,
        to,
        back: is_back(from, to),
    })
}

/// The step of a query, and 1 where it has none. `None` where it can't be read.
pub(crate) fn step(value: &Value) -> Option<u64>
    ensures some { IfSome result (λ n. StepIs (step_in (view value.now)) n) }
    ensures none { IfNone result ((n : ℕ) → ¬ (StepIs (step_in (view value.now)) n)) }
{
    match within(value, "group-aggregate", "step") {
        Some(step) => step_of(step),
        None => Some(1),
    }
}

fn bound(value: &Value, key: &str, scale: u32) -> Option<Option<i64>>
    requires { scale ≤ 9 }
    ensures { (bound : Option ℤ) → (result ≡ Some bound)
        ↔ BoundIs scale (found_within (codes "filter") key.now (view value.now)) bound }
{
    match within(value, "filter", key) {
        Some(bound) => match bound_of(bound, scale) {
            Some(bound) => Some(Some(bound)),
            None => None,
        },
        None => Some(None),
    }
}

/// The bounds of a query. `None` where one of them is no value.
pub(crate) fn filter(value: &Value, scale: u32) -> Option<Filter>
    requires { scale ≤ 9 }
    ensures { (f : TheFilter) → (result ≡ Some f) ↔ FilterIs scale (view value.now) f }
{
    let gt = bound(value, "gt", scale)?;
    let ge = bound(value, "ge", scale)?;
    let lt = bound(value, "lt", scale)?;
    let le = bound(value, "le", scale)?;
    Some(Filter { gt, ge, lt, le })
}
