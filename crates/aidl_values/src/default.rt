//! Defaults of types and of fields, and constants as values.
ghost use Rattle.std.specs.Prelude.{◌≡◌, true, map, IfOk};
ghost use Rattle.aidl_schema.specs.Seen.{seen};
ghost use Rattle.aidl_schema.specs.Types.{is_type};
ghost use Rattle.aidl_values.specs.Data.{rec};
ghost use Rattle.aidl_values.specs.Default.{IsZero, IsInitial, const_value, initial_by, initials_by, zero_of_form, zero_by, zero_within};
ghost use Rattle.aidl_values.specs.Sound.{IsFieldOf, initial_in};
ghost use Rattle.aidl_values.specs.View.{view, views};
ghost use Rattle.aidl_values.specs.steps.Levels.{zero_parts};

use crate::value::{Elements, Fields, Value};
use aidl_base::{Const, OutOfMemory, Row, Text};
use aidl_schema::{AidlType, Field, Form, Schema, Shape, form_in, law_valid};
use std::alloc::Global;
use std::rc::Rc;

// The fuel of a default, of which each level of parts takes one. It never runs out: by E23 the defaults of a valid schema
// have at most 32 levels.
const FUEL: usize = 33;

/// The default of a type: null for a nullable type, the empty sequence for another sequence type, false, 0, the empty
/// text, the record of its fields' defaults for a parcelable, and alternative 0 with the default of its first field
/// for a union. A type has one default.
pub fn default_of(alloc: Global, schema: &Schema, ty: &AidlType) -> Result<Value, OutOfMemory>
    requires { is_type schema.now.decls ty.now ≡ true }
    ensures zero { IfOk result (λ v. IsZero schema.now.decls ty.now (view v)) }
    ensures value { IfOk result (λ v. view v ≡ zero_within 33 schema.now.decls ty.now) }
{
    law_valid(schema);
    default_within(alloc, schema, *ty, FUEL)
}

/// The default of a field of a declaration of the schema: its initializer as a value, or else the default of its type.
pub fn initial_of(alloc: Global, schema: &Schema, field: &Field) -> Result<Value, OutOfMemory>
    ensures initial { IfOk result (λ v. IsFieldOf schema.now.decls field.now
        → IsInitial schema.now.decls field.now (view v)) }
    ensures value { IfOk result (λ v. view v ≡ initial_in schema.now.decls field.now) }
{
    law_valid(schema);
    match &field.initial {
        Some(initializer) => value_of(alloc, initializer),
        None => default_within(alloc, schema, field.ty, FUEL),
    }
}

// The default of a type whose parts nest at most `levels` deep.
#[cycle(default)]
fn default_within(
    alloc: Global,
    schema: &Schema,
    ty: AidlType,
    levels: usize,
) -> Result<Value, OutOfMemory>
    ensures { IfOk result (λ v. view v ≡ zero_within levels schema.now.decls ty) }
{
    default_by(alloc, schema, ty, levels)
}

#[cycle(default)]
fn default_by(
    alloc: Global,
    schema: &Schema,
    ty: AidlType,
    levels: usize,
) -> Result<Value, OutOfMemory>
    ensures { IfOk result (λ v. view v
        ≡ zero_by schema.now.decls (λ u. zero_parts levels schema.now.decls u) ty) }
{
    if ty.nullable {
        return Ok(Value::Null);
    }
    match ty.shape {
        Shape::One => default_of_form(alloc, schema, form_in(schema, ty.base), levels),
        Shape::Array | Shape::List => Ok(Value::Seq(Elements::Values(Row::new(alloc)))),
    }
}

#[cycle(default)]
fn default_of_form(
    alloc: Global,
    schema: &Schema,
    form: Form<'_>,
    levels: usize,
) -> Result<Value, OutOfMemory>
    ensures { IfOk result (λ v. view v
        ≡ zero_of_form (λ u. zero_parts levels schema.now.decls u) (seen form.entry)) }
{
    match form {
        Form::Truth => Ok(Value::Truth(false)),
        Form::Byte | Form::Char | Form::Int | Form::Long => Ok(Value::Number(0)),
        Form::Text => Ok(Value::Text(Text::empty())),
        Form::Parcelable(fields) => shared(alloc, initials(alloc, schema, fields, levels)?),
        Form::Union([first, ..]) => {
            let value = initial(alloc, schema, first, levels)?;
            Ok(Value::Alt(0, Box::new(alloc, value)?))
        }
        // No type of a valid schema means a union without fields, or nothing.
        Form::Union([]) | Form::Nothing => Ok(Value::Null),
    }
}

// A record of values, which its copies share.
fn shared(alloc: Global, values: Row<Value>) -> Result<Value, OutOfMemory>
    ensures { IfOk result (λ v. view v ≡ rec (views values)) }
{
    let row = Rc::new(alloc, values)?;
    Ok(Value::Rec(Fields::first(alloc, Row::new(alloc), row)?))
}

#[cycle(default)]
fn initials(
    alloc: Global,
    schema: &Schema,
    fields: &[Field],
    levels: usize,
) -> Result<Row<Value>, OutOfMemory>
    ensures { IfOk result (λ vs. views vs
        ≡ initials_by (λ u. zero_parts levels schema.now.decls u) fields.now) }
{
    let mut values = Vec::with_capacity(alloc, fields.len())?;
    for field in fields {
        values.push(initial(alloc, schema, field, levels)?)?;
    }
    Ok(Row::from_vec(values))
}

#[cycle(default)]
fn initial(
    alloc: Global,
    schema: &Schema,
    field: &Field,
    levels: usize,
) -> Result<Value, OutOfMemory>
    ensures { IfOk result (λ v. view v
        ≡ initial_by (λ u. zero_parts levels schema.now.decls u) field.now) }
{
    match &field.initial {
        Some(constant) => value_of(alloc, constant),
        None if levels == 0 => Ok(Value::Null),
        None => default_within(alloc, schema, field.ty, levels - 1),
    }
}

/// A constant as a value: a brace list is the sequence of its members.
#[cycle(constant)]
pub fn value_of(alloc: Global, constant: &Const) -> Result<Value, OutOfMemory>
    ensures { IfOk result (λ v. view v ≡ const_value constant.now) }
{
    match constant {
        Const::Truth(b) => Ok(Value::Truth(*b)),
        Const::Number(n) => Ok(Value::Number(*n)),
        Const::Text(text) => Ok(Value::Text(text.try_clone(alloc)?)),
        Const::Members(members) => {
            let values = values_of(alloc, members.as_slice())?;
            Ok(Value::Seq(Elements::Values(values)))
        }
    }
}

#[cycle(constant)]
fn values_of(alloc: Global, constants: &[Const]) -> Result<Row<Value>, OutOfMemory>
    ensures { IfOk result (λ vs. map view vs ≡ map const_value constants.now) }
{
    let mut values = Vec::with_capacity(alloc, constants.len())?;
    for constant in constants {
        values.push(value_of(alloc, constant)?)?;
    }
    Ok(Row::from_vec(values))
}
