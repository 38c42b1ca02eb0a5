//! Arrays of bytes, which are written as they are, with their padding.
ghost use Rattle.std.specs.Prelude.{◌≡◌, ◌≤◌, length, map, FitsSigned};
ghost use Rattle.std.specs.Int.{w8, cast_signed, cast_unsigned};
ghost use Rattle.aidl_base.specs.Words.{pad};
ghost use Rattle.aidl_values.specs.Data.{number};
ghost use Rattle.aidl_values.specs.View.{datas, items_of, view, view_element};
ghost use Rattle.parcel_words.specs.Written.{with_bytes};
ghost use Rattle.parcel_write.specs.steps.Bytes.{IsByte, AreByteValues};
ghost use Rattle.wire_model.specs.Spell.{raw_byte, raw_bytes};

use aidl_values::{Element, Elements, Value};
use parcel_words::WordWriter;

/// Appends the elements of an array of bytes, one raw byte each, and their padding.
pub(crate) fn put_raw(elements: &Elements, to: &mut WordWriter)
    requires bytes { AreByteValues (items_of (datas elements.now)) }
    requires room { length (pad (raw_bytes (items_of (datas elements.now)))) ≤ to.old.room }
    ensures { to.new ≡ with_bytes to.old (pad (raw_bytes (items_of (datas elements.now)))) }
{
    match elements {
        Elements::Bytes(bytes) => put_kept(bytes.as_slice(), to),
        _ => put_each(elements, to),
    }
}

/// Appends bytes that are kept side by side, and their padding.
fn put_kept(bytes: &[u8], to: &mut WordWriter)
    requires { length (pad
        (raw_bytes (items_of (map number (map (λ b. cast_signed w8 b) bytes.now))))) ≤ to.old.room }
    ensures { to.new ≡ with_bytes to.old
        (pad (raw_bytes (items_of (map number (map (λ b. cast_signed w8 b) bytes.now))))) }
{
    to.raw(bytes);
}

/// Appends bytes one by one, and their padding.
#[tactic(auto, using(parcel_words::proofs::lemmas::Appends::with_more))]
fn put_each(elements: &Elements, to: &mut WordWriter)
    requires bytes { AreByteValues (items_of (datas elements.now)) }
    requires room { length (pad (raw_bytes (items_of (datas elements.now)))) ≤ to.old.room }
    ensures { to.new ≡ with_bytes to.old (pad (raw_bytes (items_of (datas elements.now)))) }
{
    put_bytes(elements, to);
    to.padding(elements.len());
}

fn put_bytes(elements: &Elements, to: &mut WordWriter)
    requires bytes { AreByteValues (items_of (datas elements.now)) }
    requires room { length (raw_bytes (items_of (datas elements.now))) ≤ to.old.room }
    ensures { to.new ≡ with_bytes to.old (raw_bytes (items_of (datas elements.now))) }
{
    for i in 0..elements.len() {
        to.byte(byte_of_element(&elements.get(i)));
    }
}

fn byte_of_element(element: &Element<'_>) -> u8
    requires { IsByte (view_element element.now) }
    ensures { result ≡ raw_byte (view_element element.now) }
{
    match element {
        Element::Value(value) => byte_of(value),
        Element::Number(n) => raw_byte(*n),
        Element::Truth(_) => 0,
    }
}

fn byte_of(value: &Value) -> u8
    requires { IsByte (view value.now) }
    ensures { result ≡ raw_byte (view value.now) }
{
    match value {
        Value::Number(n) => raw_byte(*n),
        Value::Null | Value::Truth(_) | Value::Text(_) => 0,
        Value::Seq(_) | Value::Rec(_) | Value::Alt(_, _) => 0,
    }
}

/// The raw byte of a number.
fn raw_byte(n: i64) -> u8
    requires { FitsSigned w8 n }
    ensures { result ≡ cast_unsigned w8 n }
{
    (n as i8).cast_unsigned()
}
