//! The reading of queries.
ghost use Rattle.std.specs.Prelude.{◌≡◌, ◌≤◌, ◌⊎◌, IfOk, IfErr, Ok, Err};
ghost use Rattle.serde_json.specs.View.{view};
ghost use Rattle.ak_base.specs.declared.refusal.Refusal.{Refusal as TheRefusal};
ghost use Rattle.ak_query.specs.Reads.{IsQuery, Refuses, QueryGives};

use crate::copies::{metrics, tags, wheres};
use crate::functions::kind;
use crate::json::read_json;
use crate::kinds::is_shaped;
use crate::pieces::{by_time, iso, limit, offset, resp};
use crate::query::{Query, QueryError};
use crate::times::{filter, range, step};
use ak_base::Refusal;
use serde_json::Value;
use std::alloc::Global;

// The query that a value spells.
fn query_of(alloc: Global, value: &Value, scale: u32) -> Result<Query, QueryError>
    requires { scale ≤ 9 }
    ensures ok { IfOk result (λ q. IsQuery scale (view value.now) q) }
    ensures err { IfErr result (λ e. (e ≡ QueryError.Memory)
        ⊎ ((r : TheRefusal) × (e ≡ QueryError.Refused r) × Refuses scale (view value.now) r)) }
{
    if !is_shaped(value) {
        return Err(QueryError::Refused(Refusal::BadQuery));
    }
    let filter = filter(value, scale).ok_or(QueryError::Refused(Refusal::BadQuery))?;
    let range = range(value).ok_or(QueryError::Refused(Refusal::BadRange))?;
    let step = step(value).ok_or(QueryError::Refused(Refusal::BadRange))?;
    let kind = kind(alloc, value, step)?;
    Ok(Query {
        kind,
        metrics: metrics(alloc, value)?,
        range,
        filter,
        wheres: wheres(alloc, value)?,
        tags: tags(alloc, value)?,
        by_time: by_time(value),
        offset: offset(value),
        limit: limit(value),
        resp: resp(value),
        iso: iso(value),
    })
}

/// Reads the query that the bytes spell, at a scale of values.
///
/// # Errors
///
/// `NotJson` where the bytes are no JSON. `BadQuery` where the value isn't an object of the keys of a query with what
/// each may hold. `BadRange` where a time or the step can't be read. `BadFunc` where a name is that of no function. The
/// first of them comes that holds, each over the whole of the value. `Memory` may come at any bytes.
pub fn read_query(alloc: Global, from: &[u8], scale: u32) -> Result<Query, QueryError>
    requires { scale ≤ 9 }
    ensures ok { IfOk result (λ q. QueryGives scale from.now (Ok q)) }
    ensures err { IfErr result (λ e. (e ≡ QueryError.Memory)
        ⊎ ((r : TheRefusal) × (e ≡ QueryError.Refused r) × QueryGives scale from.now (Err r))) }
{
    let value = read_json(alloc, from)?;
    query_of(alloc, &value, scale)
}
