//! Booleans, strings and numbers as values.
ghost use Rattle.std.specs.Prelude.{◌≡◌, ◌<◌, Ok, Err};
ghost use Rattle.serde_json.specs.View.{view as json_view, number_view};
ghost use Rattle.serde_json.specs.Find.{as_integer};
ghost use Rattle.aidl_schema.specs.Seen.{seen};
ghost use Rattle.aidl_values.specs.View.{view};
ghost use Rattle.json_values.specs.Scalars as answer;
ghost use Rattle.json_writing.specs.Named.{enumerators_of};
ghost use Rattle.json_values.specs.steps.Gives.{Gives};

use crate::enumerators::read_name;
use crate::fault::{Fault, Reason, refused};
use crate::reader::Reader;
use aidl_base::Text;
use aidl_schema::{Base, Form, is_in_range};
use aidl_values::Value;
use serde_json::{Number, Value as Json};
use std::alloc::Global;

/// The value of a boolean: true or false. All else is refused as of a wrong shape.
pub fn read_truth(alloc: Global, json: &Json) -> Result<Value, Fault<Reason>>
    ensures { Gives view result (answer.truth_from (json_view json.now)) }
{
    match json {
        Json::Bool(b) => Ok(Value::Truth(*b)),
        _ => Err(refused(alloc, Reason::WrongShape)),
    }
}

/// The value of a String: a string. All else is refused as of a wrong shape.
pub fn read_text(alloc: Global, json: &Json) -> Result<Value, Fault<Reason>>
    ensures { Gives view result (answer.text_from (json_view json.now)) }
{
    match json {
        Json::String(text) => Ok(Value::Text(Text::from_str(alloc, text.as_str())?)),
        _ => Err(refused(alloc, Reason::WrongShape)),
    }
}

/// The value of a byte, char, int, long or enum: a whole number in the range of the type, or of the enum's backing type; of
/// an enum also the name of an enumerator. A whole number outside is refused as out of range, a name of none as an unknown
/// enumerator, and as of a wrong shape a number that isn't whole, a string where the type is no enum, and what is neither.
pub fn read_number(
    reader: &mut Reader<'_>,
    base: Base,
    form: &Form<'_>,
    json: &Json,
) -> Result<Value, Fault<Reason>>
    ensures same { reader.new ≡ reader.old }
    ensures gives { Gives view result (answer.number_from
        (enumerators_of reader.old base) (seen form.now) (json_view json.now)) }
{
    match json {
        Json::Number(number) => read_whole(reader.alloc(), form, number),
        Json::String(name) => read_name(reader, base, name.as_str()),
        _ => Err(refused(reader.alloc(), Reason::WrongShape)),
    }
}

// A whole number in the range of a type or of a backing.
fn read_whole(alloc: Global, form: &Form<'_>, number: &Number) -> Result<Value, Fault<Reason>>
    ensures { Gives view result
        (answer.whole_from (seen form.now) (as_integer (number_view number.now))) }
{
    match number.as_i64() {
        Some(n) if is_in_range(form, n) => Ok(Value::Number(n)),
        None if number.is_f64() => Err(refused(alloc, Reason::WrongShape)),
        _ => Err(refused(alloc, Reason::OutOfRange)),
    }
}
