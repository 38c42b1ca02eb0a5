//! Values and strings as they stand in a line.
ghost use Rattle.std.specs.Prelude.{◌≡◌};
ghost use Rattle.growing.specs.Grows.{Grows};
ghost use Rattle.aidl_values.specs.View.{views};
ghost use Rattle.run_command.specs.LineText.{others_text, quoted, result_text, values_text};
ghost use Rattle.wire_model.specs.Calls.{optional_view};
ghost use Rattle.wire_model.specs.Typed.{EachHasType, IsResult};

use crate::printers::SidePrinter;
use aidl_schema::AidlType;
use aidl_values::Value;
use growing::GrowingText;
use serde_json::Value as Json;
use std::alloc::Global;

/// Adds a text as a JSON string.
#[tactic(auto, unfolding(crate::specs::LineText::quoted))]
pub fn push_quoted(alloc: Global, text: &str, out: &mut GrowingText)
    ensures { Grows out.old out.new (quoted text.now) }
{
    match Json::try_from_str(alloc, text) {
        Ok(json) => match json.to_string(alloc) {
            Ok(written) => out.push_str(written.as_str()),
            Err(_) => out.lose(),
        },
        Err(_) => out.lose(),
    }
}

/// Adds an array of values by their types.
pub fn push_values(
    alloc: Global,
    printer: &mut SidePrinter<'_>,
    types: &[AidlType],
    values: &[Value],
    out: &mut GrowingText,
)
    requires { EachHasType printer.old types.now (views values.now) }
    ensures same { printer.new ≡ printer.old }
    ensures text { Grows out.old out.new (values_text printer.old types.now (views values.now)) }
{
    match types {
        [] => out.push_str("[]"),
        [ty, types @ ..] => match values {
            [] => out.push_str("[]"),
            [value, values @ ..] => {
                out.push_str("[");
                printer.push_value(alloc, ty, value, out);
                push_others(alloc, printer, types, values, out);
                out.push_str("]");
            }
        },
    }
}

// Adds values by their types, each behind a comma.
fn push_others(
    alloc: Global,
    printer: &mut SidePrinter<'_>,
    types: &[AidlType],
    values: &[Value],
    out: &mut GrowingText,
)
    requires { EachHasType printer.old types.now (views values.now) }
    ensures same { printer.new ≡ printer.old }
    ensures text { Grows out.old out.new (others_text printer.old types.now (views values.now)) }
{
    match types {
        [] => {}
        [ty, types @ ..] => match values {
            [] => {}
            [value, values @ ..] => {
                out.push_str(",");
                printer.push_value(alloc, ty, value, out);
                push_others(alloc, printer, types, values, out);
            }
        },
    }
}

/// Adds the result of a method, null for a void one.
pub fn push_result(
    alloc: Global,
    printer: &mut SidePrinter<'_>,
    ty: Option<AidlType>,
    value: &Option<Value>,
    out: &mut GrowingText,
)
    requires { IsResult printer.old ty (optional_view value.now) }
    ensures same { printer.new ≡ printer.old }
    ensures text { Grows out.old out.new (result_text printer.old ty (optional_view value.now)) }
{
    match ty {
        Some(ty) => match value {
            Some(value) => printer.push_value(alloc, &ty, value, out),
            None => out.push_str("null"),
        },
        None => out.push_str("null"),
    }
}
