//! How deep a value is.
ghost use Rattle.std.specs.Prelude.{◌≡◌, min};
ghost use Rattle.aidl_values.specs.Data.{depth_of, greatest};
ghost use Rattle.aidl_values.specs.View.{datas, field_datas, items_of, view, view_element};

use crate::value::{Element, Elements, Fields, Value};

/// The composite depth of a value, in levels: 0 of null, a truth value, a number or a text, and one more than the
/// greatest depth inside for a sequence, a record or an alternative. It is at most `usize::MAX`.
#[cycle(depth)]
pub fn depth(value: &Value) -> usize
    ensures { result ≡ min (depth_of (view value.now)) usize.MAX }
{
    match value {
        Value::Null | Value::Truth(_) | Value::Number(_) | Value::Text(_) => 0,
        Value::Seq(elements) => depth_of_elements(elements).saturating_add(1),
        Value::Rec(fields) => depth_of_fields(fields).saturating_add(1),
        Value::Alt(_, inner) => depth(inner).saturating_add(1),
    }
}

#[cycle(depth)]
fn depth_of_elements(elements: &Elements) -> usize
    ensures { result ≡ min (greatest (items_of (datas elements.now))) usize.MAX }
{
    let mut most = 0;
    for i in 0..elements.len() {
        let here = depth_of_element(&elements.get(i));
        if most < here {
            most = here;
        }
    }
    most
}

#[cycle(depth)]
fn depth_of_element(element: &Element<'_>) -> usize
    ensures { result ≡ min (depth_of (view_element element.now)) usize.MAX }
{
    match element {
        Element::Value(value) => depth(value),
        Element::Truth(_) | Element::Number(_) => 0,
    }
}

#[cycle(depth)]
fn depth_of_fields(fields: &Fields) -> usize
    ensures { result ≡ min (greatest (items_of (field_datas fields.now))) usize.MAX }
{
    let mut most = 0;
    for i in 0..fields.len() {
        let here = depth(fields.get(i));
        if most < here {
            most = here;
        }
    }
    most
}
