//! The arguments of a call.
ghost use Rattle.std.specs.Prelude.{◌≡◌, ◌+◌, ◌≤◌, false, length, option_map, IfOk};
ghost use Rattle.serde_json.specs.View.{view as json_view, items_view, number_view};
ghost use Rattle.serde_json.specs.Find.{as_integer};
ghost use Rattle.aidl_values.specs.View.{view, views};
ghost use Rattle.wire_model.specs.Requests as requests;
ghost use Rattle.wire_model.specs.Requests.{ArgumentFits, ArgumentsFit, sum_of_lengths};
ghost use Rattle.call_scripts.specs.Arguments as meant;
ghost use Rattle.call_scripts.specs.Refusal.{at_entry};
ghost use Rattle.call_scripts.specs.Gives.{Gives};
ghost use Rattle.call_scripts.specs.steps.Lengths.{IsLengthWithin};
ghost use Rattle.aidl_values.specs.Data.{null};

use crate::line::{is_count, value_from};
use crate::refused::{Place, RefusedName, refusal};
use aidl_base::Row;
use aidl_schema::{Arg, Schema, is_array};
use aidl_values::Value;
use json_values::Fault;
use serde_json::{Number, Value as Json};
use std::alloc::Global;
use stub_dispatch::{MOST_ITEMS, is_out};

// The entries of `args`, one for each argument: a value, or for an `out` argument the length of its array or null. It refuses exactly by
// the rules of *Script* (own), the first entry first.
pub fn args_from(
    alloc: Global,
    schema: &Schema,
    args: &[Arg],
    json: Option<&Json>,
) -> Result<Row<Value>, Fault<RefusedName>>
    ensures gives { Gives views result
        (meant.args_from schema.now.decls args.now (option_map (λ j. json_view j.now) json.entry)) }
    ensures fit { IfOk result (λ vs. ArgumentsFit schema.now.decls args.now (views vs)) }
    ensures few { IfOk result (λ vs. sum_of_lengths args.now (views vs) ≤ 65536) }
{
    match json {
        None if args.is_empty() => entries_from(alloc, schema, args, &[]),
        Some(Json::Array(items)) if is_count(items.as_slice(), args.len()) => {
            entries_from(alloc, schema, args, items.as_slice())
        }
        _ => Err(refusal(alloc, RefusedName::WrongShape, Place::Args)),
    }
}

fn entries_from(
    alloc: Global,
    schema: &Schema,
    args: &[Arg],
    items: &[Json],
) -> Result<Row<Value>, Fault<RefusedName>>
    requires { length args.now ≡ length items.now }
    ensures gives { Gives views result
        (meant.entries_from schema.now.decls 0 0 args.now (items_view items.now)) }
    ensures fit { IfOk result (λ vs. ArgumentsFit schema.now.decls args.now (views vs)) }
    ensures few { IfOk result (λ vs. sum_of_lengths args.now (views vs) ≤ 65536) }
{
    let mut values = Vec::with_capacity(alloc, args.len())?;
    let mut sum = 0;
    for k in 0..args.len() {
        let arg = &args[k];
        let value = entry_from(alloc, schema, sum, k, arg, &items[k])?;
        sum += asked_length(arg, &value);
        values.push(value)?;
    }
    Ok(Row::from_vec(values))
}

fn asked_length(arg: &Arg, value: &Value) -> u64
    ensures { result ≡ requests.asked_length arg.now (view value.now) }
{
    match value {
        Value::Number(n) if is_out(arg.way) && *n >= 0 => *n as u64,
        Value::Null
        | Value::Truth(_)
        | Value::Number(_)
        | Value::Text(_)
        | Value::Seq(_)
        | Value::Rec(_)
        | Value::Alt(_, _) => 0,
    }
}

// An entry, where the lengths before it add up to `sum`.
fn entry_from(
    alloc: Global,
    schema: &Schema,
    sum: u64,
    k: usize,
    arg: &Arg,
    json: &Json,
) -> Result<Value, Fault<RefusedName>>
    requires { sum ≤ 65536 }
    ensures gives { Gives view result
        (meant.entry_from schema.now.decls sum (at_entry k) arg.now (json_view json.now)) }
    ensures fits { IfOk result (λ v. ArgumentFits schema.now.decls arg.now (view v)) }
    ensures few { IfOk result (λ v. sum + requests.asked_length arg.now (view v) ≤ 65536) }
{
    if !is_out(arg.way) {
        return value_from(alloc, schema, &arg.ty, json, Place::Entry(k));
    }
    if is_array(arg.ty.shape) {
        array_from(alloc, arg.ty.nullable, sum, k, json)
    } else {
        null_from(alloc, k, json)
    }
}

// The length of an `out` array, or null where it may be null.
fn array_from(
    alloc: Global,
    nullable: bool,
    sum: u64,
    k: usize,
    json: &Json,
) -> Result<Value, Fault<RefusedName>>
    requires { sum ≤ 65536 }
    ensures gives { Gives view result
        (meant.array_from nullable sum (at_entry k) (json_view json.now)) }
    ensures length { IfOk result (λ v. IsLengthWithin nullable sum (view v)) }
{
    match json {
        Json::Null if nullable => Ok(Value::Null),
        Json::Number(number) => length_from(alloc, sum, k, number),
        _ => Err(refusal(alloc, RefusedName::WrongShape, Place::Entry(k))),
    }
}

fn length_from(
    alloc: Global,
    sum: u64,
    k: usize,
    number: &Number,
) -> Result<Value, Fault<RefusedName>>
    requires { sum ≤ 65536 }
    ensures gives { Gives view result
        (meant.length_from sum (at_entry k) (as_integer (number_view number.now))) }
    ensures length { IfOk result (λ v. IsLengthWithin false sum (view v)) }
{
    match number.as_u64() {
        Some(n) if n <= MOST_ITEMS as u64 - sum => Ok(Value::Number(n as i64)),
        None if number.is_f64() => Err(refusal(alloc, RefusedName::WrongShape, Place::Entry(k))),
        _ => Err(refusal(alloc, RefusedName::OutOfRange, Place::Entry(k))),
    }
}

// Null, for an `out` argument of no array.
fn null_from(alloc: Global, k: usize, json: &Json) -> Result<Value, Fault<RefusedName>>
    ensures gives { Gives view result (meant.null_from (at_entry k) (json_view json.now)) }
    ensures null { IfOk result (λ v. view v ≡ null) }
{
    match json {
        Json::Null => Ok(Value::Null),
        _ => Err(refusal(alloc, RefusedName::WrongShape, Place::Entry(k))),
    }
}
