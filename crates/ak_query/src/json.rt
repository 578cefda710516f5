//! JSON.
ghost use Rattle.std.specs.Prelude.{◌≡◌, IfOk, IsErrOf, IfErr, ◌⊎◌};
ghost use Rattle.serde_json.specs.Data.{Data};
ghost use Rattle.serde_json.specs.View.{view};
ghost use Rattle.ak_query.specs.Json.{IsJson};

use crate::query::QueryError;
use ak_base::Refusal;
use serde_json::Value;
use std::alloc::Global;

/// The value that the bytes are.
pub(crate) fn read_json(alloc: Global, from: &[u8]) -> Result<Value, QueryError>
    ensures ok { IfOk result (λ v. IsJson from.now (view v)) }
    ensures refused { IfErr result (λ e. (e ≡ QueryError.Memory)
        ⊎ ((e ≡ QueryError.Refused Refusal.NotJson) × ((d : Data) → ¬ (IsJson from.now d)))) }
{
    match Value::from_slice(alloc, from) {
        Ok(value) => Ok(value),
        Err(e) => {
            if e.is_memory() {
                Err(QueryError::Memory)
            } else {
                Err(QueryError::Refused(Refusal::NotJson))
            }
        }
    }
}
