//! The row of C7, an argument whose direction differs.
ghost use Rattle.std.specs.Prelude.{◌≡◌, List, ℕ, IfOk, None, Some, true};
ghost use Rattle.std.specs.Str.{encode_utf8_all};
ghost use Rattle.aidl_schema.specs.Types.{is_type};
ghost use Rattle.aidl_values.specs.Data.{item, none};
ghost use Rattle.aidl_values.specs.View.{view};
ghost use Rattle.wire_model.specs.Calls.{returned};
ghost use Rattle.wire_model.specs.Receiver.{zero_in};
ghost use Rattle.compat_witness.specs.Candidates.{answered};
ghost use Rattle.compat_witness.specs.Rows.{ask_C7, is_met_C7, is_sent_back, row_C7, row_C7_at, sent_in_out};
ghost use Rattle.witness_calls.specs.Seen.{values_seen};
ghost use Rattle.witness_search.specs.Asked.{part_seen};
ghost use Rattle.witness_search.specs.steps.Gives.{GivesRow};
ghost use Rattle.witness_search.specs.steps.Seen.{spot_seen};

use crate::candidates::{Candidates, Part, alone, call_by, one_value};
use crate::pair::Pair;
use crate::plain::low_value;
use crate::spot::{Spot, at_slash, both_only, spot_like, spot_of};
use aidl_base::{OutOfMemory, Text};
use aidl_schema::{AidlType, Arg, Form, Schema, Shape, form_in, is_in_way, is_named, same_type};
use aidl_values::{Answer, Elements, Value, default_of};
use std::alloc::Global;
use stub_dispatch::is_out;
use witness_calls::{Values, Version};

impl Pair<'_, '_> {
    /// C7, at an argument: where one direction is `in`, a reply to that client with the default of the out; else a request from the version
    /// that has `inout`, with the default, or with an array of one z0.
    pub fn asked_c7(&self, alloc: Global, place: &Text) -> Result<Option<Candidates>, OutOfMemory>
        ensures { IfOk result (GivesRow row_C7_at self.now place.now) }
    {
        match at_slash(place.as_str()) {
            Some((method, _)) => self.c7_of_method(alloc, method),
            None => Ok(None),
        }
    }

    // The same by the method of the place.
    fn c7_of_method(&self, alloc: Global, place: &str) -> Result<Option<Candidates>, OutOfMemory>
        ensures { (p : List ℕ) → place.now ≡ encode_utf8_all p
            → IfOk result (GivesRow row_C7 self.now p) }
    {
        let Some(before) = spot_of(&self.old, place) else {
            return Ok(None);
        };
        let Some(after) = spot_like(self, &before) else {
            return Ok(None);
        };
        match both_only(&before, &after) {
            Some(args) if is_met(self, &before, &after, args) => {
                let call = call_back(alloc, self, &before, &after, args)?;
                Ok(Some(alone(call)))
            }
            _ => Ok(None),
        }
    }
}

// The same type, which can be sent back; two-way and void in both.
fn is_met(pair: &Pair<'_, '_>, before: &Spot<'_>, after: &Spot<'_>, args: (&Arg, &Arg)) -> bool
    ensures { result ≡ is_met_C7 pair.now.old pair.now.new (spot_seen before.now) (spot_seen after.now)
        args.entry.0.now args.entry.1.now }
{
    let (old, new) = (pair.old.schema(), pair.new.schema());
    (same_type(old, args.0.ty, new, args.1.ty) && is_sent_back(old, args.0.ty, new, args.1.ty))
        && (!(before.method.oneway || after.method.oneway)
            && (before.method.result.is_none() && after.method.result.is_none()))
}

// Never null, and a parcelable in both or an array of a built-in base.
fn is_sent_back(old: &Schema, before: AidlType, new: &Schema, after: AidlType) -> bool
    ensures { result ≡ is_sent_back old.now.decls before new.now.decls after }
{
    if before.nullable {
        return false;
    }
    match before.shape {
        Shape::One => {
            matches!(form_in(old, before.base), Form::Parcelable(_))
                && matches!(form_in(new, after.base), Form::Parcelable(_))
        }
        Shape::Array => !is_named(before.base),
        Shape::List => false,
    }
}

// The call of the row. What can be sent back is a type of both schemas.
fn call_back(
    alloc: Global,
    pair: &Pair<'_, '_>,
    before: &Spot<'_>,
    after: &Spot<'_>,
    args: (&Arg, &Arg),
) -> Result<Part, OutOfMemory>
    requires { is_met_C7 pair.now.old pair.now.new (spot_seen before.now) (spot_seen after.now)
        args.0.now args.1.now ≡ true }
    ensures { IfOk result (λ call. part_seen pair.now.old pair.now.new call
        ≡ ask_C7 pair.now.old pair.now.new (spot_seen before.now) (spot_seen after.now)
        args.entry.0.now args.entry.1.now) }
{
    if is_in_way(args.0.way) {
        let sent = default_reply(alloc, &pair.new, args.1.ty)?;
        return Ok(call_by(false, before, sent));
    }
    if is_in_way(args.1.way) {
        let sent = default_reply(alloc, &pair.old, args.0.ty)?;
        return Ok(call_by(true, after, sent));
    }
    if is_out(args.0.way) {
        let value = sent_in_out(alloc, &pair.new, args.1.ty)?;
        let sent = one_value(alloc, value)?;
        return Ok(call_by(true, after, Values::Arguments(sent)));
    }
    let value = sent_in_out(alloc, &pair.old, args.0.ty)?;
    let sent = one_value(alloc, value)?;
    Ok(call_by(false, before, Values::Arguments(sent)))
}

// The answer of a void method with the default of an out.
fn default_reply(alloc: Global, server: &Version<'_>, ty: AidlType) -> Result<Values, OutOfMemory>
    requires { is_type server.now ty ≡ true }
    ensures { IfOk result (λ values. values_seen values
        ≡ answered (Some (returned None (item (zero_in server.now ty) none)))) }
{
    let value = default_of(alloc, server.schema(), &ty)?;
    let outs = one_value(alloc, value)?;
    let answer = Answer::Returned { result: None, outs };
    Ok(Values::Answer(Some(answer)))
}

// The default, or an array of one z0.
fn sent_in_out(alloc: Global, version: &Version<'_>, ty: AidlType) -> Result<Value, OutOfMemory>
    requires { is_type version.now ty ≡ true }
    ensures { IfOk result (λ value. view value ≡ sent_in_out version.now ty) }
{
    match ty.shape {
        Shape::One => default_of(alloc, version.schema(), &ty),
        Shape::Array | Shape::List => {
            let values = one_value(alloc, low_value(ty.base))?;
            Ok(Value::Seq(Elements::Values(values)))
        }
    }
}
