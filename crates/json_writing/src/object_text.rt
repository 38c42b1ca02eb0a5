//! The JSON objects of parcelables and unions.
ghost use Rattle.std.specs.List.{All};
ghost use Rattle.std.specs.Prelude.{◌≡◌};
ghost use Rattle.growing.specs.Grows.{Grows};
ghost use Rattle.aidl_values.specs.Data.{alt, rec};
ghost use Rattle.aidl_values.specs.HasType.{HasType};
ghost use Rattle.aidl_values.specs.View.{field_datas, items_of, view};
ghost use Rattle.json_writing.specs.ValueText.{value_text};
ghost use Rattle.json_writing.specs.steps.Members.{IsTyped, part_text, row_text};

use crate::members::Member;
use crate::named::fields_of;
use crate::printer::JsonPrinter;
use crate::quoted::push_quoted;
use aidl_schema::{AidlType, Base};
use aidl_values::{Fields, Value};
use growing::GrowingText;
use std::alloc::Global;

// Adds a parcelable: its fields in the order of their names.
#[cycle(printing)]
pub fn push_record(
    alloc: Global,
    printer: &mut JsonPrinter<'_>,
    ty: &AidlType,
    values: &Fields,
    text: &mut GrowingText,
)
    requires { HasType printer.old ty.now (rec (items_of (field_datas values.now))) }
    ensures same { printer.new ≡ printer.old }
    ensures text { Grows text.old text.new
        (value_text printer.old ty.now (rec (items_of (field_datas values.now)))) }
{
    let Base::Named(decl) = ty.base else {
        unreachable!()
    };
    match printer.rows.row(alloc, decl) {
        Ok(row) => {
            text.push('{');
            push_members(alloc, printer, row.as_slice(), values, text);
            text.push('}');
        }
        Err(_) => text.lose(),
    }
}

#[cycle(printing)]
fn push_members(
    alloc: Global,
    printer: &mut JsonPrinter<'_>,
    row: &[Member],
    values: &Fields,
    text: &mut GrowingText,
)
    requires typed { All (IsTyped printer.old (field_datas values.now)) row.now }
    ensures same { printer.new ≡ printer.old }
    ensures text { Grows text.old text.new
        (row_text (part_text printer.old (field_datas values.now)) row.now) }
{
    for member in row {
        text.push_str(member.key.as_str());
        printer.push_value(alloc, &member.ty, values.get(member.place), text);
    }
}

// Adds a union: the one field that a tag names.
#[cycle(printing)]
pub fn push_alternative(
    alloc: Global,
    printer: &mut JsonPrinter<'_>,
    ty: &AidlType,
    tag: u32,
    value: &Value,
    text: &mut GrowingText,
)
    requires { HasType printer.old ty.now (alt tag (view value.now)) }
    ensures same { printer.new ≡ printer.old }
    ensures text { Grows text.old text.new
        (value_text printer.old ty.now (alt tag (view value.now))) }
{
    match fields_of(printer.schema, ty.base).get(tag as usize) {
        Some(field) => {
            text.push('{');
            push_quoted(alloc, field.name.0.as_str(), text);
            text.push(':');
            printer.push_value(alloc, &field.ty, value, text);
            text.push('}');
        }
        None => text.push_str("null"),
    }
}
