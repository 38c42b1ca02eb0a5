//! What `out` arguments start as.
ghost use Rattle.std.specs.Prelude.{◌≡◌, ◌+◌, ◌≤◌, pos, true, IfOk, OnOk};
ghost use Rattle.aidl_schema.specs.Types.{elem, is_type};
ghost use Rattle.aidl_values.specs.Data.{number, seq, truth};
ghost use Rattle.aidl_values.specs.View.{datas, items_of, view, views};
ghost use Rattle.parcel_words.specs.Taken.{TakesIfMemory};
ghost use Rattle.wire_model.specs.Receiver.{length_at, opening, opening_at, repeated};

use crate::call_reader::CallReader;
use crate::status::MOST_ITEMS;
use aidl_base::{OutOfMemory, Row};
use aidl_schema::{AidlType, Form, Schema, element, form_in, is_array, law_valid};
use aidl_values::{Elements, Value, default_of};
use parcel_words::ReadFault;
use std::alloc::Global;

/// What an `out` argument starts as, by the length that is sent of it: an array as so many default values, or null where there is no
/// length; any other argument as a default value, whatever the length is.
pub fn opening(
    alloc: Global,
    schema: &Schema,
    ty: AidlType,
    length: Option<usize>,
) -> Result<Value, OutOfMemory>
    requires { is_type schema.now.decls ty ≡ true }
    ensures { IfOk result (λ v. view v ≡ opening schema.now.decls ty length) }
{
    law_valid(schema);
    if !is_array(ty.shape) {
        return default_of(alloc, schema, &ty);
    }
    match length {
        None => Ok(Value::Null),
        Some(n) => {
            let one = element(schema, ty);
            let value = default_of(alloc, schema, &one)?;
            repeated(alloc, &value, &form_in(schema, one.base), n)
        }
    }
}

/// An `out` argument: an array has its length word, any other has nothing. `sum` is that of the lengths before.
#[tactic(auto, unfolding(wire_model::specs::Receiver::array_opening_at))]
pub fn opening_from(
    alloc: Global,
    schema: &Schema,
    ty: AidlType,
    sum: usize,
    from: &mut CallReader<'_>,
) -> Result<Value, ReadFault>
    requires known { is_type schema.now.decls ty ≡ true }
    requires few { sum ≤ 65536 }
    ensures taken { TakesIfMemory view result
        (opening_at schema.now.decls sum ty from.old.bytes) from.new.bytes }
    ensures same { OnOk result (from.new.profile ≡ from.old.profile) }
{
    if !is_array(ty.shape) {
        return Ok(default_of(alloc, schema, &ty)?);
    }
    let length = length_from(ty.nullable, sum, from)?;
    Ok(opening(alloc, schema, ty, length)?)
}

// The length of an `out` array, where None is null.
#[tactic(auto, unfolding(wire_model::specs::Receiver::length_at))]
fn length_from(
    nullable: bool,
    sum: usize,
    from: &mut CallReader<'_>,
) -> Result<Option<usize>, ReadFault>
    requires { sum ≤ 65536 }
    ensures taken { TakesIfMemory (λ n. n) result
        (length_at nullable sum from.old.bytes) from.new.bytes }
    ensures same { OnOk result (from.new.profile ≡ from.old.profile) }
{
    match from.count(nullable)? {
        None => Ok(None),
        Some(n) => {
            if n > MOST_ITEMS - sum {
                return Err(ReadFault::BadValue);
            }
            Ok(Some(n))
        }
    }
}

// The sequence of a default of a form so many times: truth values and zeros side by side, and of others copies, which share what a
// default shares.
fn repeated(
    alloc: Global,
    value: &Value,
    form: &Form<'_>,
    count: usize,
) -> Result<Value, OutOfMemory>
    ensures { IfOk result (λ v. view v ≡ seq (repeated count (view value.now))) }
{
    let elements = match value {
        Value::Truth(b) => truths(alloc, *b, count)?,
        Value::Number(0) => zeros(alloc, form, count)?,
        _ => Elements::Values(copies(alloc, value, count)?),
    };
    Ok(Value::Seq(elements))
}

#[tactic(auto, using(crate::proofs::Repeats::truths_repeated))]
fn truths(alloc: Global, b: bool, count: usize) -> Result<Elements, OutOfMemory>
    ensures { IfOk result (λ es. items_of (datas es) ≡ repeated count (truth b)) }
{
    let row = Vec::from_elem(alloc, b, count)?;
    Ok(Elements::Truths(Row::from_vec(row)))
}

// Zeros of the width of a form.
#[tactic(auto, using(crate::proofs::Repeats::bytes_repeated, crate::proofs::Repeats::chars_repeated, crate::proofs::Repeats::ints_repeated, crate::proofs::Repeats::longs_repeated))]
fn zeros(alloc: Global, form: &Form<'_>, count: usize) -> Result<Elements, OutOfMemory>
    ensures { IfOk result (λ es. items_of (datas es) ≡ repeated count (number (pos 0))) }
{
    match form {
        Form::Byte => Ok(Elements::Bytes(Row::from_vec(Vec::from_elem(alloc, 0, count)?))),
        Form::Char => Ok(Elements::Chars(Row::from_vec(Vec::from_elem(alloc, 0, count)?))),
        Form::Int => Ok(Elements::Ints(Row::from_vec(Vec::from_elem(alloc, 0, count)?))),
        _ => Ok(Elements::Longs(Row::from_vec(Vec::from_elem(alloc, 0, count)?))),
    }
}

fn copies(alloc: Global, value: &Value, count: usize) -> Result<Row<Value>, OutOfMemory>
    ensures { IfOk result (λ vs. views vs ≡ repeated count (view value.now)) }
{
    let mut items = Vec::with_capacity(alloc, count)?;
    for _ in 0..count {
        let copy = value.try_clone(alloc)?;
        items.push(copy)?;
    }
    Ok(Row::from_vec(items))
}
