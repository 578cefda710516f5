//! The functions of a query, and its kind.
ghost use Rattle.std.specs.Prelude.{◌≡◌, ◌⊎◌, ◌∷◌, [], map, IfOk, IfErr, codes, false, Some};
ghost use Rattle.std.specs.List.{list_all};
ghost use Rattle.serde_json.specs.View.{view};
ghost use Rattle.ak_query.specs.Json.{text_of as text_in, texts_of as texts_in};
ghost use Rattle.ak_query.specs.Pieces.{texts_at, func_named as function_named, is_function, has_functions};
ghost use Rattle.ak_query.specs.Reads.{KindIs, StepIs, step_in};

use crate::pieces::{func_named, function_of};
use crate::query::{Func, Funcs, Kind, QueryError};
use crate::shapes::{has, items, text_of};
use ak_base::Refusal;
use serde_json::Value;
use std::alloc::Global;

// The function of this name.
fn named(name: &str) -> Result<Func, QueryError>
    ensures ok { IfOk result (λ f. function_named name.now ≡ Some f) }
    ensures err { IfErr result (λ e. (e ≡ QueryError.Refused Refusal.BadFunc) × (is_function name.now ≡ false)) }
{
    func_named(name).ok_or(QueryError::Refused(Refusal::BadFunc))
}

// The functions whose names the items are.
fn named_each(alloc: Global, names: &[Value]) -> Result<Funcs, QueryError>
    ensures ok { IfOk result (λ funcs. map (λ f. Some f) funcs ≡ map (λ v. function_named (text_in (view v))) names.now) }
    ensures err { IfErr result (λ e. (e ≡ QueryError.Memory) ⊎ ((e ≡ QueryError.Refused Refusal.BadFunc)
        × (list_all (λ v. is_function (text_in (view v))) names.now ≡ false))) }
{
    let mut funcs = Funcs::new(alloc);
    for name in names {
        funcs.push(alloc, named(text_of(name))?)?;
    }
    Ok(funcs)
}

// The one function of this name.
fn named_one(alloc: Global, name: &str) -> Result<Funcs, QueryError>
    ensures ok { IfOk result (λ funcs. map (λ f. Some f) funcs ≡ map function_named (name.now ∷ [])) }
    ensures err { IfErr result (λ e. (e ≡ QueryError.Memory) ⊎ ((e ≡ QueryError.Refused Refusal.BadFunc)
        × (list_all is_function (name.now ∷ []) ≡ false))) }
{
    let mut funcs = Funcs::new(alloc);
    funcs.push(alloc, named(name)?)?;
    Ok(funcs)
}

// The functions whose names a text or the items of an array are.
fn named_all(alloc: Global, names: &Value) -> Result<Funcs, QueryError>
    ensures ok { IfOk result (λ funcs. map (λ f. Some f) funcs ≡ map function_named (texts_in (view names.now))) }
    ensures err { IfErr result (λ e. (e ≡ QueryError.Memory) ⊎ ((e ≡ QueryError.Refused Refusal.BadFunc)
        × (list_all is_function (texts_in (view names.now)) ≡ false))) }
{
    match names.as_str() {
        Some(name) => named_one(alloc, name),
        None => match items(names) {
            Some(names) => named_each(alloc, names),
            None => Ok(Funcs::new(alloc)),
        },
    }
}

// The functions of a group-aggregate.
fn functions(alloc: Global, group: &Value) -> Result<Funcs, QueryError>
    ensures ok { IfOk result (λ funcs. map (λ f. Some f) funcs
        ≡ map function_named (texts_at (codes "func") (view group.now))) }
    ensures err { IfErr result (λ e. (e ≡ QueryError.Memory) ⊎ ((e ≡ QueryError.Refused Refusal.BadFunc)
        × (list_all is_function (texts_at (codes "func") (view group.now)) ≡ false))) }
{
    match group.get("func") {
        Some(names) => named_all(alloc, names),
        None => Ok(Funcs::new(alloc)),
    }
}

/// The kind of a query, whose step this is.
pub(crate) fn kind(alloc: Global, value: &Value, step: u64) -> Result<Kind, QueryError>
    requires { StepIs (step_in (view value.now)) step }
    ensures ok { IfOk result (λ kind. KindIs (view value.now) kind) }
    ensures err { IfErr result (λ e. (e ≡ QueryError.Memory) ⊎ ((e ≡ QueryError.Refused Refusal.BadFunc)
        × (has_functions (view value.now) ≡ false))) }
{
    if has(value, "select") {
        return Ok(Kind::Select);
    }
    if let Some(aggregate) = value.get("aggregate") {
        return Ok(Kind::Aggregate(named(function_of(aggregate))?));
    }
    match value.get("group-aggregate") {
        Some(group) => {
            let funcs = functions(alloc, group)?;
            Ok(Kind::Group { step, funcs })
        }
        None => Ok(Kind::Join),
    }
}
