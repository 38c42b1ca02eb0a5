//! Numbers as values, without a look at the schema.
ghost use Rattle.std.specs.Prelude.{◌≡◌, IfSome};
ghost use Rattle.serde_json.specs.View.{view as json_view};
ghost use Rattle.aidl_values.specs.Data.{number};
ghost use Rattle.aidl_values.specs.View.{view};
ghost use Rattle.json_values.specs.steps.Plain.{is_in_base, IsPlain};

use aidl_schema::{AidlType, Base, Form, Shape, is_in_range};
use aidl_values::Value;
use serde_json::Value as Json;

// A number as a value.
#[inline(always)]
pub fn number_value(n: i64) -> Value
    ensures { view result ≡ number n }
{
    Value::Number(n)
}

// The number that a JSON value is for a byte, char, int or long, whatever the schema. None says nothing.
#[inline(always)]
pub fn plain_number(ty: AidlType, json: &Json) -> Option<i64>
    ensures { IfSome result (λ n. IsPlain ty (json_view json.now) (number n)) }
{
    match (ty.shape, json) {
        (Shape::One, Json::Number(number)) => match number.as_i64() {
            Some(n) if is_in_base(ty.base, n) => Some(n),
            _ => None,
        },
        _ => None,
    }
}

// Whether a number is in the range of a byte, char, int or long.
fn is_in_base(base: Base, n: i64) -> bool
    ensures { result ≡ is_in_base base n }
{
    match base {
        Base::Byte => is_in_range(&Form::Byte, n),
        Base::Char => is_in_range(&Form::Char, n),
        Base::Int => is_in_range(&Form::Int, n),
        Base::Long => is_in_range(&Form::Long, n),
        Base::Boolean | Base::Text | Base::Named(_) => false,
    }
}
