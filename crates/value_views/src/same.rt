//! Whether two values are the same data.
ghost use Rattle.std.specs.Prelude.{◌≡◌, ◌↔◌, IsTrue};
ghost use Rattle.aidl_schema.specs.Same as same;
ghost use Rattle.aidl_values.specs.Data.{number, truth};
ghost use Rattle.aidl_values.specs.View.{datas, field_datas, items_of, view, view_element};
ghost use Rattle.value_views.specs.steps.Same.{same_data, same_items};

use aidl_schema::same_text;
use aidl_values::{Element, Elements, Fields, Value};

/// Whether two values are the same data: equal truth values, numbers and texts, and parts that are the same one
/// by one, in whichever form a sequence is kept. It needs no type (own).
pub fn same_value(a: &Value, b: &Value) -> bool
    ensures { IsTrue result ↔ (view a.now ≡ view b.now) }
{
    compare(a, b)
}

#[cycle(comparing)]
fn compare(a: &Value, b: &Value) -> bool
    ensures { result ≡ same_data (view a.now) (view b.now) }
{
    match (a, b) {
        (Value::Null, Value::Null) => true,
        (Value::Truth(x), Value::Truth(y)) => same_truth(*x, *y),
        (Value::Number(m), Value::Number(n)) => *m == *n,
        (Value::Text(x), Value::Text(y)) => same_text(x, y),
        (Value::Seq(xs), Value::Seq(ys)) => compare_elements(xs, ys),
        (Value::Rec(xs), Value::Rec(ys)) => compare_fields(xs, ys),
        (Value::Alt(j, v), Value::Alt(k, w)) => *j == *k && compare(v, w),
        _ => false,
    }
}

#[cycle(comparing)]
fn compare_elements(a: &Elements, b: &Elements) -> bool
    ensures { result ≡ same_items (items_of (datas a.now)) (items_of (datas b.now)) }
{
    let count = a.len();
    if count != b.len() {
        return false;
    }
    for i in 0..count {
        if !compare_each(&a.get(i), &b.get(i)) {
            return false;
        }
    }
    true
}

// Whether two elements are the same, in whichever form each is kept.
#[cycle(comparing)]
#[inline(always)]
fn compare_each(a: &Element<'_>, b: &Element<'_>) -> bool
    ensures { result ≡ same_data (view_element a.now) (view_element b.now) }
{
    match (a, b) {
        (Element::Value(v), Element::Value(w)) => compare(v, w),
        (Element::Value(v), Element::Truth(x)) => is_truth(v, *x),
        (Element::Value(v), Element::Number(n)) => is_number(v, *n),
        (Element::Truth(x), Element::Value(v)) => is_truth(v, *x),
        (Element::Truth(x), Element::Truth(y)) => same_truth(*x, *y),
        (Element::Number(n), Element::Value(v)) => is_number(v, *n),
        (Element::Number(m), Element::Number(n)) => *m == *n,
        _ => false,
    }
}

fn same_truth(a: bool, b: bool) -> bool
    ensures { result ≡ same.same_bool a b }
{
    a == b
}

#[tactic(auto, using(crate::proofs::Sames::turned))]
fn is_truth(value: &Value, expected: bool) -> bool
    ensures is { result ≡ same_data (view value.now) (truth expected) }
    ensures turned { result ≡ same_data (truth expected) (view value.now) }
{
    match value {
        Value::Truth(b) => same_truth(*b, expected),
        _ => false,
    }
}

#[tactic(auto, using(crate::proofs::Sames::turned))]
fn is_number(value: &Value, expected: i64) -> bool
    ensures is { result ≡ same_data (view value.now) (number expected) }
    ensures turned { result ≡ same_data (number expected) (view value.now) }
{
    match value {
        Value::Number(n) => *n == expected,
        _ => false,
    }
}

#[cycle(comparing)]
fn compare_fields(a: &Fields, b: &Fields) -> bool
    ensures { result ≡ same_items (items_of (field_datas a.now)) (items_of (field_datas b.now)) }
{
    let count = a.len();
    if count != b.len() {
        return false;
    }
    for i in 0..count {
        if !compare(a.get(i), b.get(i)) {
            return false;
        }
    }
    true
}
