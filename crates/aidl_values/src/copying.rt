//! Copies of values, of elements, of fields and of results.
ghost use Rattle.std.specs.Prelude.{◌≡◌, map, IfOk};
ghost use Rattle.aidl_values.specs.AnswerData.{optional_view};
ghost use Rattle.aidl_values.specs.Data.{alt};
ghost use Rattle.aidl_values.specs.View.{datas, field_datas, short_datas, view};

use crate::value::{Elements, Fields, ShortFields, Value};
use aidl_base::{OutOfMemory, Row};
use std::alloc::Global;

#[cycle(copy)]
pub(crate) fn copy(alloc: Global, value: &Value) -> Result<Value, OutOfMemory>
    ensures { IfOk result (λ v. view v ≡ view value.now) }
{
    match value {
        Value::Null => Ok(Value::Null),
        Value::Truth(b) => Ok(Value::Truth(*b)),
        Value::Number(n) => Ok(Value::Number(*n)),
        Value::Text(text) => Ok(Value::Text(text.try_clone(alloc)?)),
        Value::Seq(elements) => Ok(Value::Seq(copy_elements(alloc, elements)?)),
        Value::Rec(fields) => Ok(Value::Rec(copy_fields(alloc, fields)?)),
        Value::Alt(tag, inner) => {
            let copied = copy(alloc, inner)?;
            alternative(alloc, *tag, copied)
        }
    }
}

fn alternative(alloc: Global, tag: u32, value: Value) -> Result<Value, OutOfMemory>
    ensures { IfOk result (λ v. view v ≡ alt tag (view value)) }
{
    Ok(Value::Alt(tag, Box::new(alloc, value)?))
}

#[cycle(copy)]
pub(crate) fn copy_elements(alloc: Global, elements: &Elements) -> Result<Elements, OutOfMemory>
    ensures { IfOk result (λ es. datas es ≡ datas elements.now) }
{
    match elements {
        Elements::Values(values) => Ok(Elements::Values(copy_values(alloc, values.as_slice())?)),
        Elements::Truths(truths) => {
            let copied = truths.as_slice().to_vec(alloc)?;
            Ok(Elements::Truths(Row::from_vec(copied)))
        }
        Elements::Bytes(bytes) => {
            let copied = bytes.as_slice().to_vec(alloc)?;
            Ok(Elements::Bytes(Row::from_vec(copied)))
        }
        Elements::Chars(units) => {
            let copied = units.as_slice().to_vec(alloc)?;
            Ok(Elements::Chars(Row::from_vec(copied)))
        }
        Elements::Ints(ints) => {
            let copied = ints.as_slice().to_vec(alloc)?;
            Ok(Elements::Ints(Row::from_vec(copied)))
        }
        Elements::Longs(longs) => {
            let copied = longs.as_slice().to_vec(alloc)?;
            Ok(Elements::Longs(Row::from_vec(copied)))
        }
    }
}

#[cycle(copy)]
fn copy_fields(alloc: Global, fields: &Fields) -> Result<Fields, OutOfMemory>
    ensures { IfOk result (λ fs. field_datas fs ≡ field_datas fields.now) }
{
    match fields {
        Fields::Whole(values) => Ok(Fields::Whole(copy_values(alloc, values.as_slice())?)),
        Fields::Short(short) => {
            let copied = copy_short(alloc, short)?;
            Ok(Fields::Short(Box::new(alloc, copied)?))
        }
    }
}

// The same places and values given there, and the defaults, which it shares.
#[cycle(copy)]
fn copy_short(alloc: Global, short: &ShortFields) -> Result<ShortFields, OutOfMemory>
    ensures { IfOk result (λ s. short_datas s ≡ short_datas short.now) }
{
    let places = short.places.try_clone(alloc)?;
    let given = copy_values(alloc, short.given.as_slice())?;
    let defaults = short.defaults.clone()?;
    Ok(ShortFields {
        places,
        given,
        defaults,
    })
}

#[cycle(copy)]
pub(crate) fn copy_values(alloc: Global, values: &[Value]) -> Result<Row<Value>, OutOfMemory>
    ensures { IfOk result (λ vs. map view vs ≡ map view values.now) }
{
    let mut copies = Vec::with_capacity(alloc, values.len())?;
    for value in values {
        copies.push(copy(alloc, value)?)?;
    }
    Ok(Row::from_vec(copies))
}

pub(crate) fn copy_result(
    alloc: Global,
    value: &Option<Value>,
) -> Result<Option<Value>, OutOfMemory>
    ensures { IfOk result (λ v. optional_view v ≡ optional_view value.now) }
{
    match value {
        Some(value) => {
            let copied = copy(alloc, value)?;
            Ok(Some(copied))
        }
        None => Ok(None),
    }
}
