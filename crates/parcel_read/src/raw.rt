//! Arrays of bytes, which stand in a parcel as they are.
ghost use Rattle.std.specs.Prelude.{◌≡◌, IfOk, OnOk};
ghost use Rattle.aidl_values.specs.View.{datas, items_of};
ghost use Rattle.parcel_words.specs.Place.{left, is_inside, MovesOn};
ghost use Rattle.parcel_words.specs.Taken.{TakesIfMemory};
ghost use Rattle.wire_model.specs.ReadOf.{raw_items, raw_items_at};

use aidl_base::{OutOfMemory, Row};
use aidl_values::Elements;
use parcel_words::{ReadFault, WordReader};
use std::alloc::Global;

/// Reads so many raw bytes and their padding. Room is taken once the bytes are there.
#[tactic(auto, unfolding(wire_model::specs::ReadOf::raw_items_at))]
pub fn raw_from(alloc: Global, count: usize, from: &mut WordReader) -> Result<Elements, ReadFault>
    ensures taken { TakesIfMemory (λ elements. items_of (datas elements)) result
        (raw_items_at from.old.profile count (is_inside from.old) (left from.old)) (left from.new) }
    ensures on { OnOk result (MovesOn from.old from.new) }
{
    let bytes = from.raw(count)?;
    let elements = byte_elements(alloc, bytes)?;
    Ok(elements)
}

/// The elements that bytes are.
fn byte_elements(alloc: Global, bytes: &[u8]) -> Result<Elements, OutOfMemory>
    ensures { IfOk result (λ elements. items_of (datas elements) ≡ raw_items bytes.now) }
{
    let copied = bytes.to_vec(alloc)?;
    Ok(Elements::Bytes(Row::from_vec(copied)))
}
