//! Words that say what follows them.
ghost use Rattle.std.specs.Prelude.{◌≡◌, OnOk};
ghost use Rattle.parcel_words.specs.Place.{left, is_inside, MovesOn};
ghost use Rattle.parcel_words.specs.Taken.{TakesIfMemory};
ghost use Rattle.wire_model.specs.ReadOf.{marker_at, tag_at};

use parcel_words::{ReadFault, Wire, WordReader};
use std::alloc::Global;

/// Reads the marker of a parcelable or union: whether a value follows. Otherwise it is null.
#[tactic(auto, unfolding(wire_model::specs::ReadOf::marker_at))]
pub fn marker_from(alloc: Global, nullable: bool, from: &mut WordReader) -> Result<bool, ReadFault>
    ensures taken { TakesIfMemory (λ there. there) result
        (marker_at from.old.profile nullable (is_inside from.old) (left from.old)) (left from.new) }
    ensures on { OnOk result (MovesOn from.old from.new) }
{
    if bool::take(alloc, from)? {
        Ok(true)
    } else if nullable {
        Ok(false)
    } else {
        Err(ReadFault::UnexpectedNull)
    }
}

/// Reads the tag of a union.
#[tactic(auto, unfolding(wire_model::specs::ReadOf::tag_at))]
pub fn tag_from(from: &mut WordReader) -> Result<u32, ReadFault>
    ensures taken { TakesIfMemory (λ tag. tag) result
        (tag_at (is_inside from.old) (left from.old)) (left from.new) }
    ensures on { OnOk result (MovesOn from.old from.new) }
{
    let word = from.word()?;
    if word < 0 {
        return Err(ReadFault::BadValue);
    }
    Ok(word as u32)
}
