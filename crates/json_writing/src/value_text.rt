//! The JSON text of a value of any type, and of booleans and the commas between parts.
ghost use Rattle.growing.specs.Grows.{Grows};
ghost use Rattle.serde_json.specs.Data.{boolean};
ghost use Rattle.serde_json.specs.Written.{comma_if, compact_text};
ghost use Rattle.aidl_values.specs.HasType.{HasType};
ghost use Rattle.aidl_values.specs.View.{view};
ghost use Rattle.json_writing.specs.ValueText.{value_text};

use crate::printer::JsonPrinter;
use aidl_schema::{AidlType, Schema};
use aidl_values::Value;
use growing::GrowingText;
use std::alloc::Global;

/// Adds a value of a type to a text, as compact JSON. It goes into the text piece by piece, with no JSON value between, but
/// for a string in which a character is escaped.
pub fn push_value_text(
    alloc: Global,
    schema: &Schema,
    ty: &AidlType,
    value: &Value,
    text: &mut GrowingText,
)
    requires { HasType schema.now.decls ty.now (view value.now) }
    ensures { Grows text.old text.new (value_text schema.now.decls ty.now (view value.now)) }
{
    let mut printer = JsonPrinter::new(alloc, schema);
    printer.push_value(alloc, ty, value, text);
}

pub fn push_truth(b: bool, text: &mut GrowingText)
    ensures { Grows text.old text.new (compact_text (boolean b)) }
{
    text.push_str(if b { "true" } else { "false" });
}

// Adds the comma between two elements or members, where one stands before.
#[inline(always)]
pub fn push_comma_if(later: bool, text: &mut GrowingText)
    ensures { Grows text.old text.new (comma_if later) }
{
    if later {
        text.push(',');
    }
}
