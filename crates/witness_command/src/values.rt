//! Values as they stand in a side: by their parts, without their types.
ghost use Rattle.growing.specs.Grows.{Grows};
ghost use Rattle.serde_json.specs.Written.{comma_if};
ghost use Rattle.aidl_values.specs.Data.{rec, seq};
ghost use Rattle.aidl_values.specs.View.{datas, field_datas, items_of, view, view_element, views};
ghost use Rattle.witness_command.specs.Texts.{quoted, value_text, values_text};

use aidl_values::{Element, Elements, Fields, Value};
use growing::GrowingText;
use serde_json::Value as Json;
use std::alloc::Global;

/// Adds values as a list in `[` and `]` (own).
pub fn push_values(alloc: Global, values: &[Value], text: &mut GrowingText)
    ensures { Grows text.old text.new (values_text (views values.now)) }
{
    text.push_str("[");
    let mut later = false;
    for value in values {
        push_comma_if(later, text);
        push_value(alloc, value, text);
        later = true;
    }
    text.push_str("]");
}

/// Adds a value: null, truth values, numbers and texts as in compact JSON, a sequence in `[` and `]`, a record by position in `{` and
/// `}`, an alternative as `<TAG:VALUE>`, parts joined by commas (own).
#[cycle(showing)]
pub fn push_value(alloc: Global, value: &Value, text: &mut GrowingText)
    ensures { Grows text.old text.new (value_text (view value.now)) }
{
    match value {
        Value::Null => text.push_str("null"),
        Value::Truth(b) => write!(text, "{b}"),
        Value::Number(n) => write!(text, "{n}"),
        Value::Text(string) => push_quoted(alloc, string.as_str(), text),
        Value::Seq(elements) => push_sequence(alloc, elements, text),
        Value::Rec(fields) => push_record(alloc, fields, text),
        Value::Alt(tag, inner) => {
            write!(text, "<{tag}:");
            push_value(alloc, inner, text);
            text.push_str(">");
        }
    }
}

// Adds a text as a JSON string.
#[tactic(auto, unfolding(crate::specs::Texts::quoted))]
fn push_quoted(alloc: Global, string: &str, text: &mut GrowingText)
    ensures { Grows text.old text.new (quoted string.now) }
{
    let Ok(json) = Json::try_from_str(alloc, string) else {
        text.lose();
        return;
    };
    match json.to_string(alloc) {
        Ok(written) => text.push_str(written.as_str()),
        Err(_) => text.lose(),
    }
}

#[cycle(showing)]
fn push_sequence(alloc: Global, elements: &Elements, text: &mut GrowingText)
    ensures { Grows text.old text.new (value_text (seq (items_of (datas elements.now)))) }
{
    text.push_str("[");
    let mut later = false;
    for i in 0..elements.len() {
        let element = elements.get(i);
        push_comma_if(later, text);
        push_element(alloc, &element, text);
        later = true;
    }
    text.push_str("]");
}

#[cycle(showing)]
fn push_element(alloc: Global, element: &Element<'_>, text: &mut GrowingText)
    ensures { Grows text.old text.new (value_text (view_element element.now)) }
{
    match element {
        Element::Value(value) => push_value(alloc, value, text),
        Element::Truth(b) => write!(text, "{b}"),
        Element::Number(n) => write!(text, "{n}"),
    }
}

#[cycle(showing)]
fn push_record(alloc: Global, fields: &Fields, text: &mut GrowingText)
    ensures { Grows text.old text.new (value_text (rec (items_of (field_datas fields.now)))) }
{
    text.push_str("{");
    let mut later = false;
    for i in 0..fields.len() {
        push_comma_if(later, text);
        push_value(alloc, fields.get(i), text);
        later = true;
    }
    text.push_str("}");
}

// Adds the comma between two parts, where one stands before.
fn push_comma_if(later: bool, text: &mut GrowingText)
    ensures { Grows text.old text.new (comma_if later) }
{
    if later {
        text.push_str(",");
    }
}
