//! The JSON arrays of arrays and Lists.
ghost use Rattle.std.specs.Prelude.{◌≡◌, false};
ghost use Rattle.growing.specs.Grows.{Grows};
ghost use Rattle.serde_json.specs.Written.{items_text};
ghost use Rattle.aidl_values.specs.Data.{seq};
ghost use Rattle.aidl_values.specs.HasType.{HasType, HaveType};
ghost use Rattle.aidl_values.specs.View.{datas, items_of, view_element};
ghost use Rattle.json_writing.specs.Json.{json_items};
ghost use Rattle.json_writing.specs.ValueText.{value_text};

use crate::named::enumerators_in;
use crate::number_text::{push_bytes, push_numbers};
use crate::printer::JsonPrinter;
use crate::value_text::{push_comma_if, push_truth};
use aidl_schema::{AidlType, element};
use aidl_values::{Element, Elements};
use growing::GrowingText;
use std::alloc::Global;

// Adds an array or a List of a type.
#[cycle(printing)]
pub fn push_sequence(
    alloc: Global,
    printer: &mut JsonPrinter<'_>,
    ty: &AidlType,
    elements: &Elements,
    text: &mut GrowingText,
)
    requires { HasType printer.old ty.now (seq (items_of (datas elements.now))) }
    ensures same { printer.new ≡ printer.old }
    ensures text { Grows text.old text.new
        (value_text printer.old ty.now (seq (items_of (datas elements.now)))) }
{
    let ty = element(printer.schema, *ty);
    text.push('[');
    push_elements(alloc, printer, &ty, elements, text);
}

// Adds the elements and the bracket behind them. Numbers that lie side by side, of which there may be many, go by loops of their
// own where no enumerator names one.
#[cycle(printing)]
fn push_elements(
    alloc: Global,
    printer: &mut JsonPrinter<'_>,
    ty: &AidlType,
    elements: &Elements,
    text: &mut GrowingText,
)
    requires { HaveType printer.old ty.now (items_of (datas elements.now)) }
    ensures same { printer.new ≡ printer.old }
    ensures text { Grows text.old text.new
        (items_text false (json_items printer.old ty.now (items_of (datas elements.now)))) }
{
    if enumerators_in(printer.schema, ty.base).is_some() {
        return push_each(alloc, printer, ty, elements, text);
    }
    match elements {
        Elements::Bytes(bytes) => push_bytes(alloc, bytes.as_slice(), text),
        Elements::Chars(units) => push_numbers(units.as_slice(), text),
        Elements::Ints(ints) => push_numbers(ints.as_slice(), text),
        Elements::Longs(longs) => push_numbers(longs.as_slice(), text),
        Elements::Values(_) | Elements::Truths(_) => push_each(alloc, printer, ty, elements, text),
    }
}

// The same one by one, in each form.
#[cycle(printing)]
fn push_each(
    alloc: Global,
    printer: &mut JsonPrinter<'_>,
    ty: &AidlType,
    elements: &Elements,
    text: &mut GrowingText,
)
    requires { HaveType printer.old ty.now (items_of (datas elements.now)) }
    ensures same { printer.new ≡ printer.old }
    ensures text { Grows text.old text.new
        (items_text false (json_items printer.old ty.now (items_of (datas elements.now)))) }
{
    let mut later = false;
    for i in 0..elements.len() {
        push_comma_if(later, text);
        push_element(alloc, printer, ty, elements.get(i), text);
        later = true;
    }
    text.push(']');
}

#[cycle(printing)]
fn push_element(
    alloc: Global,
    printer: &mut JsonPrinter<'_>,
    ty: &AidlType,
    element: Element<'_>,
    text: &mut GrowingText,
)
    requires { HasType printer.old ty.now (view_element element) }
    ensures same { printer.new ≡ printer.old }
    ensures text { Grows text.old text.new
        (value_text printer.old ty.now (view_element element.entry)) }
{
    match element {
        Element::Value(value) => printer.push_value(alloc, ty, value, text),
        Element::Truth(b) => push_truth(b, text),
        Element::Number(n) => printer.push_number(alloc, ty.base, n, text),
    }
}
