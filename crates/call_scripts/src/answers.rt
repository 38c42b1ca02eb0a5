//! The answer of a two-way method from the JSON at `answer`: an exception, or a result and the `out` values.
ghost use Rattle.std.specs.Prelude.{◌≡◌, ◌==◌, true, length, option_map, IfOk};
ghost use Rattle.std.specs.List.{list_all};
ghost use Rattle.serde_json.specs.Events.{members_len};
ghost use Rattle.serde_json.specs.View.{view as json_view, items_view, members_view};
ghost use Rattle.aidl_schema.specs.Methods.{is_passed_type, is_result_type};
ghost use Rattle.aidl_schema.specs.Types.{is_type};
ghost use Rattle.aidl_values.specs.Default.{zero_within};
ghost use Rattle.aidl_values.specs.Fits.{Fits};
ghost use Rattle.aidl_values.specs.View.{view, views};
ghost use Rattle.wire_model.specs.Calls.{answer_of, optional_view, outs_of};
ghost use Rattle.wire_model.specs.Requests.{EachFits, ResultFits};
ghost use Rattle.call_scripts.specs.Answers as meant;
ghost use Rattle.call_scripts.specs.Fits.{IsAnswerOf};
ghost use Rattle.call_scripts.specs.Gives.{Gives};

use crate::line::{check_keys, is_count, member_of, value_from};
use crate::refused::{Place, RefusedName, refusal};
use crate::thrown::exception_from;
use aidl_base::{OutOfMemory, Row};
use aidl_schema::{AidlType, Arg, Schema};
use aidl_values::{Answer, Value, default_of, law_default_fits};
use json_values::Fault;
use serde_json::{Map, Value as Json};
use std::alloc::Global;
use stub_dispatch::comes_back;

/// The answer of a method that isn't oneway, and returns `ty` and has these arguments. `json` is what stands at `answer`, None where
/// nothing does. It refuses exactly by the rules of *Script* (own).
pub fn two_way_from(
    alloc: Global,
    schema: &Schema,
    ty: Option<AidlType>,
    args: &[Arg],
    json: Option<&Json>,
) -> Result<Answer, Fault<RefusedName>>
    requires returned { is_result_type schema.now.decls ty ≡ true }
    requires passed { list_all (λ a. is_passed_type schema.now.decls a.ty) args.now ≡ true }
    ensures gives { Gives answer_of result (meant.two_way_from schema.now.decls ty
        (outs_of args.now) (option_map (λ j. json_view j.now) json.entry)) }
    ensures fits { IfOk result (λ a. IsAnswerOf schema.now.decls ty (outs_of args.now) a) }
{
    match json {
        None => returned_from(alloc, schema, ty, args, None, None),
        Some(Json::Object(members)) => object_from(alloc, schema, ty, args, members),
        Some(_) => Err(refusal(alloc, RefusedName::WrongShape, Place::Answer)),
    }
}

fn object_from(
    alloc: Global,
    schema: &Schema,
    ty: Option<AidlType>,
    args: &[Arg],
    members: &Map<String, Json>,
) -> Result<Answer, Fault<RefusedName>>
    requires returned { is_result_type schema.now.decls ty ≡ true }
    requires passed { list_all (λ a. is_passed_type schema.now.decls a.ty) args.now ≡ true }
    ensures gives { Gives answer_of result (meant.object_from schema.now.decls ty
        (outs_of args.now) (members_view members.now.entries)) }
    ensures fits { IfOk result (λ a. IsAnswerOf schema.now.decls ty (outs_of args.now) a) }
{
    if !is_alone(members) {
        return Err(refusal(alloc, RefusedName::WrongShape, Place::Answer));
    }
    let known = ["exception", "return", "out"];
    if let Err(fault) = check_keys(alloc, &known, members, Place::Answer) {
        return Err(fault);
    }
    match member_of(members, "exception") {
        Some(json) => exception_from(alloc, json),
        None => {
            let returned = member_of(members, "return");
            returned_from(alloc, schema, ty, args, returned, member_of(members, "out"))
        }
    }
}

// Whether `exception` isn't there or is the only key.
fn is_alone(members: &Map<String, Json>) -> bool
    ensures { result ≡ meant.is_alone (members_view members.now.entries) }
{
    match member_of(members, "exception") {
        Some(_) => is_one(members),
        None => true,
    }
}

fn is_one(members: &Map<String, Json>) -> bool
    ensures { result ≡ (members_len (members_view members.now.entries) == 1) }
{
    members.len() == 1
}

fn returned_from(
    alloc: Global,
    schema: &Schema,
    ty: Option<AidlType>,
    args: &[Arg],
    returned: Option<&Json>,
    outs: Option<&Json>,
) -> Result<Answer, Fault<RefusedName>>
    requires returned { is_result_type schema.now.decls ty ≡ true }
    requires passed { list_all (λ a. is_passed_type schema.now.decls a.ty) args.now ≡ true }
    ensures gives { Gives answer_of result (meant.returned_from schema.now.decls ty
        (outs_of args.now) (option_map (λ j. json_view j.now) returned.entry)
        (option_map (λ j. json_view j.now) outs.entry)) }
    ensures fits { IfOk result (λ a. IsAnswerOf schema.now.decls ty (outs_of args.now) a) }
{
    let result = result_from(alloc, schema, ty, returned)?;
    let outs = outs_from(alloc, schema, args, outs)?;
    Ok(Answer::Returned { result, outs })
}

fn result_from(
    alloc: Global,
    schema: &Schema,
    ty: Option<AidlType>,
    json: Option<&Json>,
) -> Result<Option<Value>, Fault<RefusedName>>
    requires { is_result_type schema.now.decls ty ≡ true }
    ensures gives { Gives optional_view result
        (meant.result_from schema.now.decls ty (option_map (λ j. json_view j.now) json.entry)) }
    ensures fits { IfOk result (λ v. ResultFits schema.now.decls ty (optional_view v)) }
{
    match (ty, json) {
        (None, None) | (None, Some(Json::Null)) => Ok(None),
        (None, Some(_)) => Err(refusal(alloc, RefusedName::WrongShape, Place::Return)),
        (Some(ty), None) => Ok(Some(default_from(alloc, schema, &ty)?)),
        (Some(ty), Some(json)) => {
            let value = value_from(alloc, schema, &ty, json, Place::Return)?;
            Ok(Some(value))
        }
    }
}

// The default of a type.
fn default_from(alloc: Global, schema: &Schema, ty: &AidlType) -> Result<Value, OutOfMemory>
    requires { is_type schema.now.decls ty.now ≡ true }
    ensures value { IfOk result (λ v. view v ≡ zero_within 33 schema.now.decls ty.now) }
    ensures fits { IfOk result (λ v. Fits schema.now.decls ty.now (view v)) }
{
    let value = default_of(alloc, schema, ty)?;
    law_default_fits(schema, ty, &value);
    Ok(value)
}

// A value for each `out` and `inout` argument.
fn outs_from(
    alloc: Global,
    schema: &Schema,
    args: &[Arg],
    json: Option<&Json>,
) -> Result<Row<Value>, Fault<RefusedName>>
    requires { list_all (λ a. is_passed_type schema.now.decls a.ty) args.now ≡ true }
    ensures gives { Gives views result (meant.outs_from schema.now.decls
        (outs_of args.now) (option_map (λ j. json_view j.now) json.entry)) }
    ensures fits { IfOk result (λ vs. EachFits schema.now.decls (outs_of args.now) (views vs)) }
{
    let types = out_types(alloc, args)?;
    outs_of_types(alloc, schema, types.as_slice(), json)
}

fn out_types(alloc: Global, args: &[Arg]) -> Result<Vec<AidlType>, OutOfMemory>
    ensures { IfOk result (λ types. types.items ≡ outs_of args.now) }
{
    let mut types = Vec::new(alloc);
    for arg in args {
        if comes_back(arg.way) {
            types.push(arg.ty)?;
        }
    }
    Ok(types)
}

fn outs_of_types(
    alloc: Global,
    schema: &Schema,
    types: &[AidlType],
    json: Option<&Json>,
) -> Result<Row<Value>, Fault<RefusedName>>
    requires { list_all (λ t. is_passed_type schema.now.decls t) types.now ≡ true }
    ensures gives { Gives views result (meant.outs_from schema.now.decls types.now
        (option_map (λ j. json_view j.now) json.entry)) }
    ensures fits { IfOk result (λ vs. EachFits schema.now.decls types.now (views vs)) }
{
    match json {
        None => match default_outs(alloc, schema, types) {
            Ok(values) => Ok(values),
            Err(_) => Err(Fault::OutOfMemory),
        },
        Some(Json::Array(items)) if is_count(items.as_slice(), types.len()) => {
            values_from(alloc, schema, types, items.as_slice())
        }
        Some(_) => Err(refusal(alloc, RefusedName::WrongShape, Place::Outs)),
    }
}

fn default_outs(
    alloc: Global,
    schema: &Schema,
    types: &[AidlType],
) -> Result<Row<Value>, OutOfMemory>
    requires { list_all (λ t. is_passed_type schema.now.decls t) types.now ≡ true }
    ensures value { IfOk result (λ vs. views vs ≡ meant.default_outs schema.now.decls types.now) }
    ensures fits { IfOk result (λ vs. EachFits schema.now.decls types.now (views vs)) }
{
    let mut values = Vec::with_capacity(alloc, types.len())?;
    for k in 0..types.len() {
        let value = default_from(alloc, schema, &types[k])?;
        values.push(value)?;
    }
    Ok(Row::from_vec(values))
}

fn values_from(
    alloc: Global,
    schema: &Schema,
    types: &[AidlType],
    items: &[Json],
) -> Result<Row<Value>, Fault<RefusedName>>
    requires { length types.now ≡ length items.now }
    ensures gives { Gives views result
        (meant.values_from schema.now.decls 0 types.now (items_view items.now)) }
    ensures fits { IfOk result (λ vs. EachFits schema.now.decls types.now (views vs)) }
{
    let mut values = Vec::with_capacity(alloc, types.len())?;
    for k in 0..types.len() {
        let value = value_from(alloc, schema, &types[k], &items[k], Place::Out(k))?;
        values.push(value)?;
    }
    Ok(Row::from_vec(values))
}
