//! Whether a value has a type of a schema.
ghost use Rattle.std.specs.Prelude.{◌≡◌, ◌↔◌, IsTrue, slice_get};
ghost use Rattle.aidl_values.specs.Data.{number, truth};
ghost use Rattle.aidl_values.specs.HasType.{HasType};
ghost use Rattle.aidl_values.specs.steps.TypeTest.{has_type_of, of_field, all_have_type, fields_have_type};
ghost use Rattle.aidl_values.specs.View.{datas, field_datas, items_of, view, view_element};

use crate::value::{Element, Elements, Fields, Value};
use aidl_schema::{AidlType, Field, Form, Schema, element, form_in, is_in_range, is_one};

/// Whether the value has the type. A number fits the range of its type, an enum's that of the backing, and need be
/// no enumerator. A sequence has elements of the element type, a record one value for each field, and an alternative
/// a value of the field at its position. Null is of each nullable type.
pub fn has_type(schema: &Schema, ty: &AidlType, value: &Value) -> bool
    ensures { IsTrue result ↔ HasType schema.now.decls ty.now (view value.now) }
{
    is_of(schema, *ty, value)
}

#[cycle(typing)]
fn is_of(schema: &Schema, ty: AidlType, value: &Value) -> bool
    ensures { result ≡ has_type_of schema.now.decls ty (view value.now) }
{
    match value {
        Value::Null => ty.nullable,
        Value::Truth(b) => is_truth_of(schema, ty, *b),
        Value::Number(n) => is_number_of(schema, ty, *n),
        Value::Text(text) => {
            // That it is a text says that its characters are Unicode scalars.
            let _text = text.as_str();
            is_one(ty.shape) && matches!(form_in(schema, ty.base), Form::Text)
        }
        Value::Seq(elements) => {
            !is_one(ty.shape) && are_of(schema, element(schema, ty), elements)
        }
        Value::Rec(values) => match form_in(schema, ty.base) {
            Form::Parcelable(fields) => is_one(ty.shape) && are_of_fields(schema, fields, values),
            _ => false,
        },
        Value::Alt(tag, inner) => match form_in(schema, ty.base) {
            Form::Union(fields) => is_one(ty.shape) && is_of_field(schema, fields, *tag, inner),
            _ => false,
        },
    }
}

// Whether a truth value is of a type, which it is whatever it is.
fn is_truth_of(schema: &Schema, ty: AidlType, _truth: bool) -> bool
    ensures { result ≡ has_type_of schema.now.decls ty (truth _truth) }
{
    is_one(ty.shape) && matches!(form_in(schema, ty.base), Form::Truth)
}

// Whether a number is of a type.
fn is_number_of(schema: &Schema, ty: AidlType, n: i64) -> bool
    ensures { result ≡ has_type_of schema.now.decls ty (number n) }
{
    is_one(ty.shape) && is_in_range(&form_in(schema, ty.base), n)
}

// Whether a union has a field at the position, and the value is of its type.
#[cycle(typing)]
fn is_of_field(schema: &Schema, fields: &[Field], tag: u32, value: &Value) -> bool
    ensures { result ≡ of_field (slice_get fields.now tag)
        (λ u. has_type_of schema.now.decls u (view value.now)) }
{
    match fields.get(tag as usize) {
        Some(field) => is_of(schema, field.ty, value),
        None => false,
    }
}

// Whether each element is of a type.
#[cycle(typing)]
fn are_of(schema: &Schema, ty: AidlType, elements: &Elements) -> bool
    ensures { result ≡ all_have_type schema.now.decls ty (items_of (datas elements.now)) }
{
    for i in 0..elements.len() {
        let it = elements.get(i);
        if !is_element_of(schema, ty, &it) {
            return false;
        }
    }
    true
}

#[cycle(typing)]
fn is_element_of(schema: &Schema, ty: AidlType, it: &Element<'_>) -> bool
    ensures { result ≡ has_type_of schema.now.decls ty (view_element it.now) }
{
    match it {
        Element::Value(value) => is_of(schema, ty, value),
        Element::Truth(b) => is_truth_of(schema, ty, *b),
        Element::Number(n) => is_number_of(schema, ty, *n),
    }
}

// Whether there is one value for each field, of its type.
#[cycle(typing)]
fn are_of_fields(schema: &Schema, fields: &[Field], values: &Fields) -> bool
    ensures { result ≡ fields_have_type schema.now.decls fields.now
        (items_of (field_datas values.now)) }
{
    if fields.len() != values.len() {
        return false;
    }
    for i in 0..values.len() {
        let field = &fields[i];
        let value = values.get(i);
        if !is_of(schema, field.ty, value) {
            return false;
        }
    }
    true
}
