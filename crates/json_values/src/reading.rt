//! JSON values as values of a type, up to the greatest depth.
ghost use Rattle.std.specs.Prelude.{◌≡◌, ◌<◌, ◌&&◌, ◌≤◌, IfOk, IfErr, IfSome, Ok, Err};
ghost use Rattle.serde_json.specs.View.{view as json_view};
ghost use Rattle.aidl_schema.specs.Types.{form_of};
ghost use Rattle.aidl_values.specs.Fits.{Fits};
ghost use Rattle.aidl_values.specs.View.{view};
ghost use Rattle.json_values.specs.FromJson as answer;
ghost use Rattle.json_values.specs.FromJson.{from_json_of, from_by};
ghost use Rattle.json_values.specs.Gives.{refusal_of};
ghost use Rattle.json_writing.specs.Named.{enumerators_of};
ghost use Rattle.json_values.specs.steps.Levels.{part_of, default_in};
ghost use Rattle.aidl_values.specs.steps.Levels.{is_level_left};
ghost use Rattle.json_values.specs.steps.Gives.{Gives};

use crate::fault::{Fault, JsonFault, Reason, refused, reported};
use crate::numbers::{number_value, plain_number};
use crate::reader::Reader;
use crate::records::read_record;
use crate::scalars::{read_number, read_text, read_truth};
use crate::sequences::read_sequence;
use crate::unions::read_union;
use aidl_base::Text;
use aidl_schema::{AidlType, Base, Form, Schema, Shape, law_valid};
use aidl_values::{Value, law_sound};
use serde_json::Value as Json;
use std::alloc::Global;

// How deep a value may be, in levels of sequences, parcelables and unions.
const LEVELS: usize = 64;

/// The value of a type that a JSON value stands for, or the first refusal in this order: the kind of the JSON value; its
/// depth, of which a value has at most 64 levels; the least key that names no field; then the elements in order, or the
/// fields in the order of the declaration. A missing field of a parcelable takes its default, which has to fit in the
/// levels left.
pub fn from_json(
    alloc: Global,
    schema: &Schema,
    ty: &AidlType,
    json: &Json,
) -> Result<Value, JsonFault>
    ensures ok { IfOk result (λ v. from_json_of schema.now.decls 64 ty.now (json_view json.now)
        ≡ Ok (view v)) }
    ensures fits { IfOk result (λ v. Fits schema.now.decls ty.now (view v)) }
    ensures refused { IfErr result
        (λ fault. IfSome (refusal_of fault)
        (λ r. from_json_of schema.now.decls 64 ty.now (json_view json.now) ≡ Err r)) }
{
    match read_fitting(alloc, schema, *ty, json) {
        Ok(value) => Ok(value),
        Err(fault) => Err(reported(fault)),
    }
}

// What a whole value is read as fits the type.
fn read_fitting(
    alloc: Global,
    schema: &Schema,
    ty: AidlType,
    json: &Json,
) -> Result<Value, Fault<Reason>>
    ensures gives { Gives view result (from_json_of schema.now.decls 64 ty (json_view json.now)) }
    ensures fits { IfOk result (λ v. Fits schema.now.decls ty (view v)) }
{
    law_valid(schema);
    law_sound(schema);
    let mut reader = Reader::new(alloc, schema);
    read_within(&mut reader, LEVELS, ty, json)
}

// A part, which has one level fewer.
#[cycle(reading)]
pub fn read_part(
    reader: &mut Reader<'_>,
    levels: usize,
    ty: AidlType,
    json: &Json,
) -> Result<Value, Fault<Reason>>
    requires left { 0 < levels }
    requires few { levels ≤ 64 }
    ensures same { reader.new ≡ reader.old }
    ensures gives { Gives view result (part_of reader.old levels ty (json_view json.now)) }
{
    read_within(reader, levels - 1, ty, json)
}

// Numbers, of which there may be many, are answered without a look at the schema.
#[cycle(reading)]
#[inline(always)]
fn read_within(
    reader: &mut Reader<'_>,
    levels: usize,
    ty: AidlType,
    json: &Json,
) -> Result<Value, Fault<Reason>>
    requires few { levels ≤ 64 }
    ensures same { reader.new ≡ reader.old }
    ensures gives { Gives view result
        (from_json_of reader.old levels ty (json_view json.now)) }
{
    match plain_number(ty, json) {
        Some(n) => Ok(number_value(n)),
        None => read(reader, levels, ty, json),
    }
}

#[cycle(reading)]
fn read(
    reader: &mut Reader<'_>,
    levels: usize,
    ty: AidlType,
    json: &Json,
) -> Result<Value, Fault<Reason>>
    requires few { levels ≤ 64 }
    ensures same { reader.new ≡ reader.old }
    ensures gives { Gives view result
        (from_by reader.old (is_level_left levels)
        (default_in reader.old levels) (part_of reader.old levels) ty (json_view json.now)) }
{
    if is_absent(ty.nullable, json) {
        return Ok(Value::Null);
    }
    match ty.shape {
        Shape::One => read_one(reader, levels, ty.base, json),
        Shape::Array | Shape::List => {
            let element = reader.element(ty);
            read_sequence(reader, levels, element, json)
        }
    }
}

// Null, where the type may be null.
fn is_absent(nullable: bool, json: &Json) -> bool
    ensures { result ≡ (nullable && answer.is_null (json_view json.now)) }
{
    nullable && matches!(json, Json::Null)
}

// One value that is no sequence.
#[cycle(reading)]
fn read_one(
    reader: &mut Reader<'_>,
    levels: usize,
    base: Base,
    json: &Json,
) -> Result<Value, Fault<Reason>>
    requires few { levels ≤ 64 }
    ensures same { reader.new ≡ reader.old }
    ensures gives { Gives view result (answer.one_from
        (is_level_left levels) (default_in reader.old levels) (part_of reader.old levels)
        (enumerators_of reader.old base)
        (form_of reader.old base) (json_view json.now)) }
{
    reader.law_schema();
    let form = reader.form(base);
    match form {
        Form::Truth => read_truth(reader.alloc(), json),
        Form::Text => read_text(reader.alloc(), json),
        Form::Parcelable(fields) => read_record(reader, levels, base, fields, json),
        Form::Union(fields) => read_union(reader, levels, base, fields, json),
        Form::Nothing => Err(refused(reader.alloc(), Reason::WrongShape)),
        Form::Byte | Form::Char | Form::Int | Form::Long => {
            read_number(reader, base, &form, json)
        }
    }
}
