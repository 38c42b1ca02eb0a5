//! The bytes of one value, or why it isn't written.
ghost use Rattle.std.specs.Prelude.{◌≡◌, ◌<◌, ◌↔◌, length, IfOk, IsErrOf};
ghost use Rattle.aidl_values.specs.View.{view};
ghost use Rattle.parcel_write.specs.Fitting.{FitsSome, OfEachFit};
ghost use Rattle.parcel_write.specs.steps.PlanSpell.{Suits, plan_spell};
ghost use Rattle.wire_model.specs.Spell.{spell};
ghost use Rattle.parcel_write.specs.declared.parcel.WriteFault.TheVariants.{TooLarge, OutOfMemory as NoMemory};

use crate::length::length_of;
use crate::put::put;
use aidl_base::{LimitName, OutOfMemory};
use aidl_values::Value;
use marshal_plans::{PlanId, Plans};
use parcel_words::WordWriter;
use std::alloc::Global;

/// Why a value isn't written.
#[derive(Clone, Copy, Debug, PartialEq, Eq)]
pub enum WriteFault {
    /// The value's bytes are more than 1,048,576, the most of a parcel that is written.
    TooLarge,
    /// Memory was wanted and was not there.
    OutOfMemory,
}

impl From<OutOfMemory> for WriteFault {
    ghost from_gives = { λ _ fault. fault ≡ NoMemory };

    fn from(_: OutOfMemory) -> WriteFault {
        WriteFault::OutOfMemory
    }
}

/// The bytes that spell a value of the type that the id stands for. A value is refused by `TooLarge` exactly where they are more
/// than 1,048,576. The room for them is taken once, and nothing else is.
pub fn write(alloc: Global, plans: &Plans, id: PlanId, value: &Value) -> Result<Vec<u8>, WriteFault>
    requires { FitsSome plans.now id (view value.now) }
    // What is written is the spelling.
    ensures spelled { OfEachFit plans.now id (view value.now)
        (λ S t. IfOk result (λ bytes. bytes.items ≡ spell S t (view value.now))) }
    // Too large are the spellings of more than 1,048,576 bytes, and no others.
    ensures too_large { OfEachFit plans.now id (view value.now) (λ S t. IsErrOf result TooLarge
        ↔ 1048576 < length (spell S t (view value.now))) }
{
    write_by_item(alloc, plans, id, value)
}

/// The bytes of a value by its item.
fn write_by_item(
    alloc: Global,
    plans: &Plans,
    id: PlanId,
    value: &Value,
) -> Result<Vec<u8>, WriteFault>
    requires { Suits plans.now id (view value.now) }
    ensures spelled { IfOk result (λ bytes. bytes.items
        ≡ plan_spell plans.now id (view value.now)) }
    ensures too_large { IsErrOf result TooLarge
        ↔ 1048576 < length (plan_spell plans.now id (view value.now)) }
{
    let most = LimitName::ParcelBytes.number() as usize;
    let length = length_of(plans, id, value, most + 1);
    if length > most {
        return Err(WriteFault::TooLarge);
    }
    let mut to = WordWriter::with_room(alloc, length)?;
    put(plans, id, value, &mut to);
    Ok(to.finish())
}
