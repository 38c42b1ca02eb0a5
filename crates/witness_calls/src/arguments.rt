//! What the server's method sees of the arguments of a request, by the values alone.
ghost use Rattle.std.specs.Prelude.{◌≡◌, true, option_map, slice_get, IfOk, Some};
ghost use Rattle.std.specs.List.{list_all};
ghost use Rattle.std.specs.Option.{option_copied};
ghost use Rattle.aidl_schema.specs.Methods.{is_passed_type};
ghost use Rattle.aidl_schema.specs.Types.{is_type};
ghost use Rattle.aidl_values.specs.View.{view, views};
ghost use Rattle.compat_witness.specs.Sides.{projected_argument, projected_arguments};
ghost use Rattle.wire_model.specs.Receiver.{zero_in};
ghost use Rattle.wire_model.specs.Requests.{sent_length};
ghost use Rattle.witness_calls.specs.steps.Positions.{argument_seen};

use crate::ends::Ends;
use aidl_base::{OutOfMemory, Row};
use aidl_schema::{AidlType, Arg, same_type};
use aidl_values::{Value, default_of};
use std::alloc::Global;
use stub_dispatch::{is_out, opening};
use value_views::{NamedFields, view_value};

/// What the server's method, whose arguments are `wanted`, sees of the arguments `sent`, by position; None where one has no view.
#[tactic(auto, using(crate::proofs::Types::passed_at))]
pub fn project_arguments(
    alloc: Global,
    ends: &Ends<'_, '_, '_>,
    sent: &[Arg],
    wanted: &[Arg],
    values: &[Value],
) -> Result<Option<Row<Value>>, OutOfMemory>
    requires { list_all (λ a. is_passed_type ends.now.receiver.now a.ty) wanted.now ≡ true }
    ensures { IfOk result (λ o. option_map views o
        ≡ projected_arguments ends.now.sender.now sent.now ends.now.receiver.now wanted.now
        (views values.now)) }
{
    let mut seen = Vec::with_capacity(alloc, wanted.len())?;
    for k in 0..wanted.len() {
        let argument = item_at(sent, k);
        let value = item_at(values, k);
        match project_argument(alloc, ends, argument, &wanted[k], value)? {
            Some(view) => seen.push(view)?,
            None => return Ok(None),
        }
    }
    Ok(Some(Row::from_vec(seen)))
}

/// The item at a position.
pub fn item_at<T>(items: &[T], k: usize) -> Option<&T>
    ensures { option_copied result ≡ slice_get items.now k }
{
    items.get(k)
}

// What it sees of one, where the client may have no argument at its position.
fn project_argument(
    alloc: Global,
    ends: &Ends<'_, '_, '_>,
    sent: Option<&Arg>,
    wanted: &Arg,
    value: Option<&Value>,
) -> Result<Option<Value>, OutOfMemory>
    requires { is_type ends.now.receiver.now wanted.now.ty ≡ true }
    ensures { IfOk result (λ o. option_map view o
        ≡ argument_seen ends.now.sender.now
        (option_copied sent.entry) ends.now.receiver.now wanted.now
        (option_map view (option_copied value.entry))) }
{
    let Some(sent) = sent else {
        return some_default(alloc, ends.receiver, wanted.ty);
    };
    match value {
        Some(value) => project_sent(alloc, ends, sent, wanted, value),
        None => some_default(alloc, ends.receiver, wanted.ty),
    }
}

// What it sees of an argument that both methods have.
fn project_sent(
    alloc: Global,
    ends: &Ends<'_, '_, '_>,
    sent: &Arg,
    wanted: &Arg,
    value: &Value,
) -> Result<Option<Value>, OutOfMemory>
    requires { is_type ends.now.receiver.now wanted.now.ty ≡ true }
    ensures { IfOk result (λ o. option_map view o
        ≡ projected_argument ends.now.sender.now sent.now ends.now.receiver.now wanted.now
        (view value.now)) }
{
    if is_out(wanted.way) {
        if is_out(sent.way)
            && same_type(
                ends.sender.schema(),
                sent.ty,
                ends.receiver.schema(),
                wanted.ty,
            )
        {
            let opened = opening(alloc, ends.receiver.schema(), wanted.ty, sent_length(value))?;
            return Ok(Some(opened));
        }
        return some_default(alloc, ends.receiver, wanted.ty);
    }
    if is_out(sent.way) {
        return some_default(alloc, ends.receiver, wanted.ty);
    }
    view_value(alloc, ends.sender, sent.ty, ends.receiver, wanted.ty, value)
}

/// The default of a type.
pub fn some_default(
    alloc: Global,
    named: &NamedFields<'_>,
    ty: AidlType,
) -> Result<Option<Value>, OutOfMemory>
    requires { is_type named.now ty ≡ true }
    ensures { IfOk result (λ o. option_map view o ≡ Some (zero_in named.now ty)) }
{
    let value = default_of(alloc, named.schema(), &ty)?;
    Ok(Some(value))
}

// The length that stands for an `out` array.
fn sent_length(value: &Value) -> Option<usize>
    ensures { result ≡ sent_length (view value.now) }
{
    match value {
        Value::Number(n) if *n >= 0 => Some(*n as usize),
        Value::Null
        | Value::Truth(_)
        | Value::Number(_)
        | Value::Text(_)
        | Value::Seq(_)
        | Value::Rec(_)
        | Value::Alt(_, _) => None,
    }
}
