//! What the client's method has of a result and of outs, by the values alone.
ghost use Rattle.std.specs.Prelude.{◌≡◌, true, option_map, IfOk};
ghost use Rattle.std.specs.List.{list_all};
ghost use Rattle.std.specs.Option.{option_copied};
ghost use Rattle.aidl_schema.specs.Methods.{is_passed_type, is_result_type};
ghost use Rattle.aidl_schema.specs.Types.{is_type};
ghost use Rattle.aidl_values.specs.View.{view, views};
ghost use Rattle.compat_witness.specs.Sides.{first_of, out_first, projected_outs, projected_result};
ghost use Rattle.wire_model.specs.Calls.{optional_view};
ghost use Rattle.witness_calls.specs.steps.Collected.{Puts};
ghost use Rattle.witness_calls.specs.steps.Positions.{left_after, out_seen};

use crate::arguments::{item_at, some_default};
use crate::ends::Ends;
use aidl_base::{OutOfMemory, Row};
use aidl_schema::{AidlType, Arg};
use aidl_values::Value;
use std::alloc::Global;
use stub_dispatch::comes_back;
use value_views::view_value;

/// What a client whose method returns `wanted` has of a result of type `sent`; None where it has no view.
pub fn project_result(
    alloc: Global,
    ends: &Ends<'_, '_, '_>,
    sent: Option<AidlType>,
    wanted: Option<AidlType>,
    value: &Option<Value>,
) -> Result<Option<Option<Value>>, OutOfMemory>
    requires { is_result_type ends.now.receiver.now wanted ≡ true }
    ensures { IfOk result (λ o. option_map optional_view o
        ≡ projected_result ends.now.sender.now sent ends.now.receiver.now wanted
        (optional_view value.now)) }
{
    match wanted {
        Some(wanted) => match project_returned(alloc, ends, sent, wanted, value)? {
            Some(seen) => Ok(Some(Some(seen))),
            None => Ok(None),
        },
        None => Ok(Some(None)),
    }
}

// The same where the client's method returns a value.
fn project_returned(
    alloc: Global,
    ends: &Ends<'_, '_, '_>,
    sent: Option<AidlType>,
    wanted: AidlType,
    value: &Option<Value>,
) -> Result<Option<Value>, OutOfMemory>
    requires { is_passed_type ends.now.receiver.now wanted ≡ true }
    ensures { IfOk result (λ o. option_map Some (option_map view o)
        ≡ projected_result ends.now.sender.now sent ends.now.receiver.now
        (Some wanted) (optional_view value.now)) }
{
    let Some(sent) = sent else {
        return some_default(alloc, ends.receiver, wanted);
    };
    match value {
        Some(value) => view_value(alloc, ends.sender, sent, ends.receiver, wanted, value),
        None => some_default(alloc, ends.receiver, wanted),
    }
}

/// What a client whose method has the arguments `wanted` has of outs of the arguments `sent`, by position; None where one has no view.
#[tactic(auto, using(crate::proofs::Types::passed_at))]
pub fn project_outs(
    alloc: Global,
    ends: &Ends<'_, '_, '_>,
    sent: &[Arg],
    wanted: &[Arg],
    values: &[Value],
) -> Result<Option<Row<Value>>, OutOfMemory>
    requires { list_all (λ a. is_passed_type ends.now.receiver.now a.ty) wanted.now ≡ true }
    ensures { IfOk result (λ o. option_map views o
        ≡ projected_outs ends.now.sender.now sent.now ends.now.receiver.now wanted.now
        (views values.now)) }
{
    let mut seen = Vec::with_capacity(alloc, wanted.len())?;
    let mut left = values;
    for k in 0..wanted.len() {
        let from = item_at(sent, k);
        let going = push_out(alloc, ends, from, &wanted[k], left, &mut seen)?;
        if !going {
            return Ok(None);
        }
        left = values_after(from, left);
    }
    Ok(Some(Row::from_vec(seen)))
}

// Adds what the client has of an out, where the argument comes back to it. It answers false where it has no view.
fn push_out(
    alloc: Global,
    ends: &Ends<'_, '_, '_>,
    sent: Option<&Arg>,
    wanted: &Arg,
    values: &[Value],
    seen: &mut Vec<Value>,
) -> Result<bool, OutOfMemory>
    requires { is_type ends.now.receiver.now wanted.now.ty ≡ true }
    ensures { IfOk result (λ going. Puts seen.old.items seen.new.items going
        (λ others. out_first wanted.now
        (out_seen ends.now.sender.now (option_copied sent.entry) ends.now.receiver.now wanted.now
        (first_of (views values.now))) others)) }
{
    if !comes_back(wanted.way) {
        return Ok(true);
    }
    match project_out(alloc, ends, sent, wanted, values)? {
        Some(view) => {
            seen.push(view)?;
            Ok(true)
        }
        None => Ok(false),
    }
}

// What the client has of an out, where the server may have no argument at its position.
fn project_out(
    alloc: Global,
    ends: &Ends<'_, '_, '_>,
    sent: Option<&Arg>,
    wanted: &Arg,
    values: &[Value],
) -> Result<Option<Value>, OutOfMemory>
    requires { is_type ends.now.receiver.now wanted.now.ty ≡ true }
    ensures { IfOk result (λ o. option_map view o
        ≡ out_seen ends.now.sender.now (option_copied sent.entry) ends.now.receiver.now wanted.now
        (first_of (views values.now))) }
{
    let Some(sent) = sent else {
        return some_default(alloc, ends.receiver, wanted.ty);
    };
    if !comes_back(sent.way) {
        return some_default(alloc, ends.receiver, wanted.ty);
    }
    match values {
        [] => some_default(alloc, ends.receiver, wanted.ty),
        [value, _others @ ..] => view_value(
            alloc,
            ends.sender,
            sent.ty,
            ends.receiver,
            wanted.ty,
            value,
        ),
    }
}

// The values that are left behind those of an argument.
fn values_after<'v>(sent: Option<&Arg>, values: &'v [Value]) -> &'v [Value]
    ensures { views result.now ≡ left_after (option_copied sent.entry) (views values.now) }
{
    match sent {
        Some(sent) if comes_back(sent.way) => match values {
            [] => values,
            [_value, others @ ..] => others,
        },
        Some(_) => values,
        None => values,
    }
}
