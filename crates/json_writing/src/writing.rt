//! The JSON value of a value of a type, part by part.
ghost use Rattle.std.specs.Prelude.{◌≡◌, IfOk, slice_get};
ghost use Rattle.serde_json.specs.Data.{array, object, member, no_members};
ghost use Rattle.serde_json.specs.View.{view as json_view};
ghost use Rattle.aidl_values.specs.HasType.{HasType};
ghost use Rattle.aidl_values.specs.View.{datas, field_datas, items_of, view, view_element};
ghost use Rattle.json_writing.specs.Json.{json_of, json_items, json_members, json_named, json_number, json_alternative};
ghost use Rattle.json_writing.specs.Named.{bytes_of, enumerators_of};

use crate::named::fields_of;
use crate::value_names::ValueNames;
use aidl_base::{Ident, OutOfMemory};
use aidl_schema::{AidlType, Base, Field, Schema, element};
use aidl_values::{Element, Elements, Fields, Value};
use serde_json::{Map, Value as Json, put};
use std::alloc::Global;

/// A value as JSON: null, true or false, a whole number, a string, an array of the elements, an object with every field
/// of a parcelable, and one with the one field of a union. An enum's value is the name of the first enumerator that has
/// it, or else the number.
pub fn to_json(
    alloc: Global,
    schema: &Schema,
    ty: &AidlType,
    value: &Value,
) -> Result<Json, OutOfMemory>
    requires { HasType schema.now.decls ty.now (view value.now) }
    ensures { IfOk result (λ j. json_view j ≡ json_of schema.now.decls ty.now (view value.now)) }
{
    let mut names = ValueNames::new(alloc, schema);
    write(alloc, schema, &mut names, *ty, value)
}

#[cycle(writing)]
fn write(
    alloc: Global,
    schema: &Schema,
    names: &mut ValueNames<'_>,
    ty: AidlType,
    value: &Value,
) -> Result<Json, OutOfMemory>
    requires { names.old ≡ schema.now.decls }
    ensures same { names.new ≡ names.old }
    ensures json { IfOk result (λ j. json_view j ≡ json_of schema.now.decls ty (view value.now)) }
{
    match value {
        Value::Null => Ok(Json::Null),
        Value::Truth(b) => Ok(Json::Bool(*b)),
        Value::Number(n) => write_number(alloc, names, ty.base, *n),
        Value::Text(text) => Ok(Json::try_from_str(alloc, text.as_str())?),
        Value::Seq(elements) => {
            write_elements(alloc, schema, names, element(schema, ty), elements)
        }
        Value::Rec(values) => {
            let fields = fields_of(schema, ty.base);
            write_fields(alloc, schema, names, fields, values)
        }
        Value::Alt(tag, inner) => {
            let fields = fields_of(schema, ty.base);
            write_alternative(alloc, schema, names, fields, *tag, inner)
        }
    }
}

#[cycle(writing)]
fn write_elements(
    alloc: Global,
    schema: &Schema,
    names: &mut ValueNames<'_>,
    ty: AidlType,
    elements: &Elements,
) -> Result<Json, OutOfMemory>
    requires { names.old ≡ schema.now.decls }
    ensures same { names.new ≡ names.old }
    ensures json { IfOk result (λ j. json_view j
        ≡ array (json_items schema.now.decls ty (items_of (datas elements.now)))) }
{
    let mut items = Vec::with_capacity(alloc, elements.len())?;
    for i in 0..elements.len() {
        items.push(write_element(alloc, schema, names, ty, elements.get(i))?)?;
    }
    Ok(Json::from(items))
}

#[cycle(writing)]
fn write_element(
    alloc: Global,
    schema: &Schema,
    names: &mut ValueNames<'_>,
    ty: AidlType,
    element: Element<'_>,
) -> Result<Json, OutOfMemory>
    requires { names.old ≡ schema.now.decls }
    ensures same { names.new ≡ names.old }
    ensures json { IfOk result
        (λ j. json_view j ≡ json_of schema.now.decls ty (view_element element.entry)) }
{
    match element {
        Element::Value(value) => write(alloc, schema, names, ty, value),
        Element::Truth(b) => Ok(Json::Bool(b)),
        Element::Number(n) => write_number(alloc, names, ty.base, n),
    }
}

// The fields that have a value go in from the last to the first.
#[cycle(writing)]
fn write_fields(
    alloc: Global,
    schema: &Schema,
    names: &mut ValueNames<'_>,
    fields: &[Field],
    values: &Fields,
) -> Result<Json, OutOfMemory>
    requires { names.old ≡ schema.now.decls }
    ensures same { names.new ≡ names.old }
    ensures json { IfOk result (λ j. json_view j
        ≡ object (json_members schema.now.decls fields.now (items_of (field_datas values.now)))) }
{
    let mut members = Map::new(alloc);
    let count = fields.len().min(values.len());
    for i in (0..count).rev() {
        let field = &fields[i];
        let json = write(alloc, schema, names, field.ty, values.get(i))?;
        put(&mut members, alloc, field.name.0.as_str(), json)?;
    }
    Ok(Json::from(members))
}

#[cycle(writing)]
fn write_alternative(
    alloc: Global,
    schema: &Schema,
    names: &mut ValueNames<'_>,
    fields: &[Field],
    tag: u32,
    value: &Value,
) -> Result<Json, OutOfMemory>
    requires { names.old ≡ schema.now.decls }
    ensures same { names.new ≡ names.old }
    ensures json { IfOk result
        (λ j. json_view j ≡ json_alternative (slice_get fields.now tag)
        (λ u. json_of schema.now.decls u (view value.now))) }
{
    match fields.get(tag as usize) {
        Some(field) => {
            let json = write(alloc, schema, names, field.ty, value)?;
            one_member(alloc, &field.name, json)
        }
        None => Ok(Json::from(())),
    }
}

// An object with one key.
fn one_member(alloc: Global, name: &Ident, json: Json) -> Result<Json, OutOfMemory>
    ensures { IfOk result (λ j. json_view j
        ≡ object (member (bytes_of name.now) (json_view json) no_members)) }
{
    let mut members = Map::new(alloc);
    put(&mut members, alloc, name.0.as_str(), json)?;
    Ok(Json::from(members))
}

// A number, by the name of the first enumerator of the base that has it.
fn write_number(
    alloc: Global,
    names: &mut ValueNames<'_>,
    base: Base,
    n: i64,
) -> Result<Json, OutOfMemory>
    ensures same { names.new ≡ names.old }
    ensures json { IfOk result (λ j. json_view j ≡ json_number (enumerators_of names.old base) n) }
{
    match names.name(alloc, base, n)? {
        Some(name) => Ok(Json::try_from_str(alloc, name.0.as_str())?),
        None => Ok(Json::from(n)),
    }
}
