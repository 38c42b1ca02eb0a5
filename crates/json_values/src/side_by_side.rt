//! The elements of an array as numbers or truth values side by side, without a look at the schema.
ghost use Rattle.std.specs.Prelude.{◌≡◌, map, pos, IfOk, IfSome};
ghost use Rattle.std.specs.Int.{w8, cast_signed};
ghost use Rattle.serde_json.specs.View.{view as json_view, items_view};
ghost use Rattle.aidl_values.specs.Data.{number, seq, truth};
ghost use Rattle.aidl_values.specs.View.{items_of, view};
ghost use Rattle.json_values.specs.steps.Plain.{ArePlain, IsPlain};

use crate::numbers::plain_number;
use aidl_base::{OutOfMemory, Row};
use aidl_schema::{AidlType, Base, Shape};
use aidl_values::{Elements, Value};
use serde_json::Value as Json;
use std::alloc::Global;

// The sequence of the elements, where the type is boolean, byte, char, int or long, and each element is true or false, or a whole
// number in the range. None says nothing.
pub fn plain_sequence(
    alloc: Global,
    ty: AidlType,
    items: &[Json],
) -> Result<Option<Value>, OutOfMemory>
    ensures { IfOk result (λ o. IfSome o
        (λ value. ArePlain ty (items_view items.now) (view value))) }
{
    match ty.base {
        Base::Boolean => sequence_of::<bool>(alloc, ty, items),
        Base::Byte => sequence_of::<u8>(alloc, ty, items),
        Base::Char => sequence_of::<u16>(alloc, ty, items),
        Base::Int => sequence_of::<i32>(alloc, ty, items),
        Base::Long => sequence_of::<i64>(alloc, ty, items),
        Base::Text | Base::Named(_) => Ok(None),
    }
}

// The same, where elements of the type are kept so.
fn sequence_of<E: Element>(
    alloc: Global,
    ty: AidlType,
    items: &[Json],
) -> Result<Option<Value>, OutOfMemory>
    ensures { IfOk result (λ o. IfSome o
        (λ value. ArePlain ty (items_view items.now) (view value))) }
{
    let mut elements = Vec::with_capacity(alloc, items.len())?;
    for item in items {
        match E::plain(ty, item) {
            Some(element) => elements.push(element)?,
            None => return Ok(None),
        }
    }
    Ok(Some(E::sequence(elements)))
}

// What is kept side by side: a number of one width, or a truth value.
trait Element: Copy {
    ghost use Rattle.aidl_values.specs.Data.{Data};

    ghost seen: { Self → Data };

    // The element that a JSON value is for a type, whatever the schema. None says nothing.
    fn plain(ty: AidlType, json: &Json) -> Option<Self>
        ensures { IfSome result (λ element. IsPlain ty (json_view json.now) (seen element)) };

    fn sequence(elements: Vec<Self>) -> Value
        ensures { view result ≡ seq (items_of (map seen elements.items)) };
}

impl Element for bool {
    ghost use Rattle.aidl_values.specs.Data.{truth};

    ghost seen = { truth };

    #[inline(always)]
    fn plain(ty: AidlType, json: &Json) -> Option<bool> {
        match (ty.shape, ty.base, json) {
            (Shape::One, Base::Boolean, Json::Bool(b)) => Some(*b),
            _ => None,
        }
    }

    fn sequence(elements: Vec<bool>) -> Value
        ensures { view result ≡ seq (items_of (map truth elements.items)) }
    {
        Value::Seq(Elements::Truths(Row::from_vec(elements)))
    }
}

impl Element for u8 {
    ghost use Rattle.std.specs.Int.{w8, cast_signed};
    ghost use Rattle.aidl_values.specs.Data.{number};

    ghost seen = { λ b. number (cast_signed w8 b) };

    #[inline(always)]
    fn plain(ty: AidlType, json: &Json) -> Option<u8> {
        match i8::try_from(plain_number(ty, json)?) {
            Ok(n) => Some(n.cast_unsigned()),
            Err(_) => None,
        }
    }

    fn sequence(elements: Vec<u8>) -> Value
        ensures { view result
            ≡ seq (items_of (map (λ b. number (cast_signed w8 b)) elements.items)) }
    {
        Value::Seq(Elements::Bytes(Row::from_vec(elements)))
    }
}

impl Element for u16 {
    ghost use Rattle.std.specs.Prelude.{pos};
    ghost use Rattle.aidl_values.specs.Data.{number};

    ghost seen = { λ unit. number (pos unit) };

    #[inline(always)]
    fn plain(ty: AidlType, json: &Json) -> Option<u16> {
        match u16::try_from(plain_number(ty, json)?) {
            Ok(unit) => Some(unit),
            Err(_) => None,
        }
    }

    fn sequence(elements: Vec<u16>) -> Value
        ensures { view result ≡ seq (items_of (map (λ unit. number (pos unit)) elements.items)) }
    {
        Value::Seq(Elements::Chars(Row::from_vec(elements)))
    }
}

impl Element for i32 {
    ghost use Rattle.aidl_values.specs.Data.{number};

    ghost seen = { number };

    #[inline(always)]
    fn plain(ty: AidlType, json: &Json) -> Option<i32> {
        match i32::try_from(plain_number(ty, json)?) {
            Ok(n) => Some(n),
            Err(_) => None,
        }
    }

    fn sequence(elements: Vec<i32>) -> Value
        ensures { view result ≡ seq (items_of (map number elements.items)) }
    {
        Value::Seq(Elements::Ints(Row::from_vec(elements)))
    }
}

impl Element for i64 {
    ghost use Rattle.aidl_values.specs.Data.{number};

    ghost seen = { number };

    #[inline(always)]
    fn plain(ty: AidlType, json: &Json) -> Option<i64> {
        plain_number(ty, json)
    }

    fn sequence(elements: Vec<i64>) -> Value
        ensures { view result ≡ seq (items_of (map number elements.items)) }
    {
        Value::Seq(Elements::Longs(Row::from_vec(elements)))
    }
}
