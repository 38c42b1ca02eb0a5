//! The elements of a sequence, one at a time.
ghost use Rattle.std.specs.Prelude.{◌≡◌, ◌<◌, pos, map, length, slice_get, IfOk, Some};
ghost use Rattle.std.specs.Int.{w8, cast_signed};
ghost use Rattle.aidl_values.specs.View.{datas, view_element};

use crate::copying::copy_elements;
use crate::value::{Element, Elements};
use aidl_base::OutOfMemory;
use std::alloc::Global;

impl Elements {
    /// How many elements there are.
    pub fn len(&self) -> usize
        ensures { result ≡ length (datas self.now) }
    {
        match self {
            Elements::Values(values) => values.len(),
            Elements::Truths(truths) => truths.len(),
            Elements::Bytes(bytes) => bytes.len(),
            Elements::Chars(units) => units.len(),
            Elements::Ints(ints) => ints.len(),
            Elements::Longs(longs) => longs.len(),
        }
    }

    /// The element at a position.
    #[inline(always)]
    pub fn get(&self, i: usize) -> Element<'_>
        requires { i < length (datas self.now) }
        ensures { slice_get (datas self.now) i ≡ Some (view_element result) }
    {
        match self {
            Elements::Values(values) => Element::Value(&values.as_slice()[i]),
            Elements::Truths(truths) => Element::Truth(truths.as_slice()[i]),
            Elements::Bytes(bytes) => Element::Number(byte_at(bytes.as_slice(), i)),
            Elements::Chars(units) => Element::Number(unit_at(units.as_slice(), i)),
            Elements::Ints(ints) => Element::Number(int_at(ints.as_slice(), i)),
            Elements::Longs(longs) => Element::Number(long_at(longs.as_slice(), i)),
        }
    }

    /// The same elements.
    pub fn try_clone(&self, alloc: Global) -> Result<Elements, OutOfMemory>
        ensures { IfOk result (λ es. datas es ≡ datas self.now) }
    {
        copy_elements(alloc, self)
    }
}

#[inline(always)]
fn byte_at(bytes: &[u8], i: usize) -> i64
    requires { i < length bytes.now }
    ensures { slice_get (map (λ b. cast_signed w8 b) bytes.now) i ≡ Some result }
{
    i64::from(bytes[i].cast_signed())
}

#[inline(always)]
fn unit_at(units: &[u16], i: usize) -> i64
    requires { i < length units.now }
    ensures { slice_get (map pos units.now) i ≡ Some result }
{
    i64::from(units[i])
}

#[inline(always)]
fn int_at(ints: &[i32], i: usize) -> i64
    requires { i < length ints.now }
    ensures { slice_get ints.now i ≡ Some result }
{
    i64::from(ints[i])
}

#[inline(always)]
fn long_at(longs: &[i64], i: usize) -> i64
    requires { i < length longs.now }
    ensures { slice_get longs.now i ≡ Some result }
{
    longs[i]
}
