//! Values without parts: words, longs and texts.
ghost use Rattle.std.specs.Prelude.{OnOk};
ghost use Rattle.aidl_base.specs.Readings.{long_at, text_at};
ghost use Rattle.aidl_values.specs.Data.{number};
ghost use Rattle.aidl_values.specs.View.{view};
ghost use Rattle.parcel_words.specs.Place.{left, here, is_inside, MovesOn};
ghost use Rattle.parcel_words.specs.Taken.{TakesIfMemory};
ghost use Rattle.parcel_read.specs.steps.PlanRead.{word_by};
ghost use Rattle.wire_model.specs.ReadOf.{read_as, text_data};

use aidl_values::Value;
use marshal_plans::WordKind;
use parcel_words::{ReadFault, Wire, WordReader};
use std::alloc::Global;

/// Reads a word of four bytes: a boolean, a char, or a byte, an int or an enum of these.
pub fn word_from(alloc: Global, kind: WordKind, from: &mut WordReader) -> Result<Value, ReadFault>
    ensures taken { TakesIfMemory view result
        (word_by from.old.profile kind (is_inside from.old) (left from.old)) (left from.new) }
    ensures on { OnOk result (MovesOn from.old from.new) }
{
    match kind {
        WordKind::Truth => Ok(Value::Truth(bool::take(alloc, from)?)),
        WordKind::Byte => Ok(Value::Number(i64::from(i8::take(alloc, from)?))),
        WordKind::Char => Ok(Value::Number(i64::from(u16::take(alloc, from)?))),
        WordKind::Int => Ok(Value::Number(i64::from(i32::take(alloc, from)?))),
    }
}

/// Reads a long or an enum of long.
pub fn long_from(alloc: Global, from: &mut WordReader) -> Result<Value, ReadFault>
    ensures taken { TakesIfMemory view result
        (read_as number (here long_at from.old)) (left from.new) }
    ensures on { OnOk result (MovesOn from.old from.new) }
{
    let number = i64::take(alloc, from)?;
    Ok(Value::Number(number))
}

/// Reads a String, which may be null.
pub fn text_from(alloc: Global, nullable: bool, from: &mut WordReader) -> Result<Value, ReadFault>
    ensures taken { TakesIfMemory view result
        (read_as text_data (here (text_at from.old.profile nullable) from.old)) (left from.new) }
    ensures on { OnOk result (MovesOn from.old from.new) }
{
    match from.text(alloc, nullable)? {
        None => Ok(Value::Null),
        Some(text) => Ok(Value::Text(text)),
    }
}
