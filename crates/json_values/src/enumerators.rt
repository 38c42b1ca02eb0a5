//! Enumerators by their names in JSON.
ghost use Rattle.std.specs.Prelude.{◌≡◌, ◌<◌, Some, Ok, Err};
ghost use Rattle.aidl_values.specs.Data.{number};
ghost use Rattle.aidl_values.specs.View.{view};
ghost use Rattle.json_values.specs.Scalars as answer;
ghost use Rattle.json_writing.specs.Named.{enumerators_of};
ghost use Rattle.json_values.specs.steps.Gives.{Gives};

use crate::fault::{Fault, Reason, refused};
use crate::reader::Reader;
use aidl_schema::{Base, Enumerator};
use aidl_values::Value;

// The value of the enumerator of a name.
pub fn read_name(reader: &mut Reader<'_>, base: Base, name: &str) -> Result<Value, Fault<Reason>>
    ensures same { reader.new ≡ reader.old }
    ensures gives { Gives view result (answer.name_from (enumerators_of reader.old base) name.now) }
{
    match reader.enumerators(base) {
        Some(enumerators) => read_enumerator(reader, base, enumerators, name),
        None => Err(refused(reader.alloc(), Reason::WrongShape)),
    }
}

// The same, by the enumerators of the base.
fn read_enumerator(
    reader: &mut Reader<'_>,
    base: Base,
    enumerators: &[Enumerator],
    name: &str,
) -> Result<Value, Fault<Reason>>
    requires { enumerators_of reader.old base ≡ Some enumerators.now }
    ensures same { reader.new ≡ reader.old }
    ensures gives { Gives view result (answer.enumerator_from enumerators.now name.now) }
{
    match reader.enumerator_place(base, enumerators, name)? {
        Some(place) => Ok(value_of(&enumerators[place])),
        None => Err(refused(reader.alloc(), Reason::UnknownEnumerator)),
    }
}

fn value_of(enumerator: &Enumerator) -> Value
    ensures { view result ≡ number enumerator.now.value }
{
    Value::Number(enumerator.value)
}
