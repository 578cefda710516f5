//! What a message asks for.
ghost use Rattle.std.specs.Prelude.{ℕ, List, ◌≡◌, ◌≢◌, ◌≤◌, ◌∷◌, [], length, map, Some, Ok, IfOk, IfSome, IfNone, MatchOption};
ghost use Rattle.ak_names.specs.Names.{DoesName};
ghost use Rattle.ak_resp.specs.Puts.{AreParts, AreValues, IsPutOf, IsTimed};
ghost use Rattle.ak_run.specs.Asking.{Asks, PutAsks, OnNames, OnTime};
ghost use Rattle.ak_run.specs.Fitting.{IsAllowed};

use crate::asked::Asked;
use crate::queries::ask_query;
use crate::times::read_put_time;
use crate::values::read_values;
use ak_base::{Point, Refusal, Texts, read_value};
use ak_names::{NameError, metrics, read_names};
use ak_resp::{LentParts, LentValues, Message, Part, WholePut};
use std::alloc::{AllocError, Global};

// What a put of these names and this time asks for.
fn ask_at(
    alloc: Global,
    names: Texts,
    time: u64,
    values: &[Part],
    scale: u32,
) -> Result<Asked, AllocError>
    requires { scale ≤ 9 }
    ensures { IfOk result (λ asked. OnTime scale names (map (λ v. v.bytes) values.now) asked (Ok time)) }
{
    match read_values(alloc, values, scale)? {
        Ok(values) => Ok(Asked::Points {
            names,
            time,
            values,
        }),
        Err(refusal) => Ok(Asked::Refused(refusal)),
    }
}

// What a put of these names asks for.
fn ask_named(
    alloc: Global,
    names: Texts,
    time: &[u8],
    values: &[Part],
    scale: u32,
) -> Result<Asked, AllocError>
    requires { scale ≤ 9 }
    ensures { IfOk result (λ asked. OnNames scale time.now (map (λ v. v.bytes) values.now) asked (Some names)) }
{
    match read_put_time(time) {
        Ok(time) => ask_at(alloc, names, time, values, scale),
        Err(refusal) => Ok(Asked::Refused(refusal)),
    }
}

// What a put asks for.
fn ask_put(
    alloc: Global,
    name: &[u8],
    time: &[u8],
    values: &[Part],
    scale: u32,
) -> Result<Asked, AllocError>
    requires { scale ≤ 9 }
    ensures { IfOk result (λ asked. PutAsks scale name.now time.now (map (λ v. v.bytes) values.now) asked) }
{
    if values.len() as u64 != metrics(name) {
        return Ok(Asked::Refused(Refusal::CountsDiffer));
    }
    match read_names(alloc, name) {
        Ok(names) => ask_named(alloc, names, time, values, scale),
        Err(NameError::Bad) => Ok(Asked::Refused(Refusal::BadName)),
        Err(NameError::Memory) => Err(AllocError),
    }
}

/// What a message asks for, where values have this scale: their unit is 10^-scale. Points have as many values as names,
/// and each name is canonical.
pub fn ask(alloc: Global, message: &Message, scale: u32) -> Result<Asked, AllocError>
    requires { scale ≤ 9 }
    ensures asks { IfOk result (λ asked. Asks scale message.now asked) }
    ensures allowed { IfOk result (λ asked. IsAllowed asked) }
{
    match message {
        Message::Put { name, time, values } => ask_put(
            alloc,
            name.bytes.as_slice(),
            time.bytes.as_slice(),
            values.as_slice(),
            scale,
        ),
        Message::Query(json) => ask_query(alloc, json.bytes.as_slice()),
        Message::Flush => Ok(Asked::Flush),
        Message::Unknown => Ok(Asked::Refused(Refusal::NoControl)),
    }
}

/// The text of the one value of an array; `None` exactly where it hasn't one value.
fn only_part<'a>(values: LentParts<'a>) -> Option<&'a [u8]>
    ensures { (parts : List Part) → AreParts values.entry.count values.entry.spelled.now parts
        → MatchOption result (length parts ≢ 1) (λ text. map (λ v. v.bytes) parts ≡ text.now ∷ []) }
{
    if values.count != 1 {
        return None;
    }
    let (first, _others) = values.split()?;
    Some(first.text)
}

/// The text of the one value of a put; `None` exactly where it hasn't one value.
fn only_value<'a>(values: LentValues<'a>) -> Option<&'a [u8]>
    ensures { (parts : List Part) → AreValues values.entry parts
        → MatchOption result (length parts ≢ 1) (λ text. map (λ v. v.bytes) parts ≡ text.now ∷ []) }
{
    match values {
        LentValues::One(value) => Some(value.text),
        LentValues::Array(parts) => only_part(parts),
    }
}

/// The point that a put asks for whose text names one series: its time in nanoseconds since the beginning of 1970, and its value
/// in units of 10^-scale. It takes no memory. `None` exactly where such a put asks for a refusal, which `ask` tells.
pub fn ask_known(put: &WholePut, scale: u32) -> Option<Point>
    requires scale { scale ≤ 9 }
    requires timed { IsTimed put.now }
    ensures some { IfSome result (λ p. (name : List ℕ) (m : Message) → DoesName put.now.name.text.now (name ∷ []) → IsPutOf put.now m
        → Asks scale m (Asked.Points (name ∷ []) p.ts (p.value ∷ []))) }
    ensures none { IfNone result ((name : List ℕ) (m : Message) → DoesName put.now.name.text.now (name ∷ []) → IsPutOf put.now m
        → (refusal : Refusal) × Asks scale m (Asked.Refused refusal)) }
{
    let Some(text) = only_value(put.values) else {
        return None;
    };
    let ts = put.ts;
    match read_value(text, scale) {
        Ok(value) => Some(Point { ts, value }),
        Err(_refusal) => None,
    }
}
