//! Items of words that say what follows them: counts of elements, markers and tags. Each call notes the item and answers what it says; it ends
//! where the item is wrong, or for want of memory.
ghost use Rattle.std.specs.Prelude.{◌≡◌, ◌≤◌, ◌<◌, true, length, IfOk, IfSome, OnOk};
ghost use Rattle.aidl_base.specs.declared.profile.Profile.TheVariants.{Strict};
ghost use Rattle.aidl_values.specs.steps.Levels.{is_level_left};
ghost use Rattle.parcel_words.specs.Place.{left, is_inside, MovesOn};
ghost use Rattle.parcel_words.specs.Taken.{TakesIfMemory};
ghost use Rattle.parcel_explain.specs.Marks.{elements_count_at, field_tag_at, value_marker_at};
ghost use Rattle.parcel_explain.specs.Noted.{item};
ghost use Rattle.parcel_explain.specs.declared.item.ItemKind.TheVariants as kind;
ghost use Rattle.parcel_explain.specs.steps.Notes.{MayNote, Tells};

use crate::item::{Item, ItemKind};
use crate::noting::{Stopped, push, stop_at};
use crate::paths::Spot;
use aidl_base::Row;
use aidl_schema::Field;
use parcel_words::{ReadFault, Wire, WordReader};
use std::alloc::Global;

/// Notes the count of an array or a List and answers how many elements follow, or None for null. Even no elements need a level.
pub fn elements_count_item(
    spot: &Spot<'_>,
    nullable: bool,
    from: &mut WordReader,
    items: &mut Row<Item>,
) -> Result<Option<usize>, Stopped>
    requires small { length from.old.bytes ≤ 1048576 }
    ensures told { Tells (λ n. n) result (item spot.now.path.now kind.Count
        (λ c. elements_count_at (is_level_left spot.now.levels) nullable (is_inside from.old) c)
        (left from.old)) (left from.new) items.old items.new }
    ensures level { IfOk result (λ n. IfSome n (λ k. 0 < spot.now.levels)) }
    ensures on { OnOk result (MovesOn from.old from.new) }
{
    let start = from.position();
    match elements_count(spot.levels, nullable, from) {
        Ok(count) => {
            push(spot, ItemKind::Count, from.position() - start, items)?;
            Ok(count)
        }
        Err(fault) => Err(stop_at(spot, fault)),
    }
}

#[tactic(auto, unfolding(crate::specs::Marks::elements_count_at))]
fn elements_count(
    levels: usize,
    nullable: bool,
    from: &mut WordReader,
) -> Result<Option<usize>, ReadFault>
    ensures taken { TakesIfMemory (λ n. n) result (elements_count_at
        (is_level_left levels) nullable (is_inside from.old) (left from.old)) (left from.new) }
    ensures level { IfOk result (λ n. IfSome n (λ k. 0 < levels)) }
    ensures on { OnOk result (MovesOn from.old from.new) }
{
    let count = from.count(nullable)?;
    if levels == 0 && count.is_some() {
        return Err(ReadFault::BadValue);
    }
    Ok(count)
}

/// Notes the marker of a parcelable or union and answers whether its value follows, which needs a level, or it is null.
pub fn marker_item(
    spot: &Spot<'_>,
    nullable: bool,
    from: &mut WordReader,
    items: &mut Row<Item>,
) -> Result<bool, Stopped>
    requires reader { MayNote from.old }
    ensures told { Tells (λ m. m) result (item spot.now.path.now kind.Marker
        (λ c. value_marker_at (is_level_left spot.now.levels) nullable (is_inside from.old) c)
        (left from.old)) (left from.new) items.old items.new }
    ensures level { IfOk result (λ m. m ≡ true → 0 < spot.now.levels) }
    ensures on { OnOk result (MovesOn from.old from.new) }
{
    let start = from.position();
    match value_marker(spot.alloc, spot.levels, nullable, from) {
        Ok(there) => {
            push(spot, ItemKind::Marker, from.position() - start, items)?;
            Ok(there)
        }
        Err(fault) => Err(stop_at(spot, fault)),
    }
}

#[tactic(auto, unfolding(crate::specs::Marks::value_marker_at, wire_model::specs::ReadOf::marker_at))]
fn value_marker(
    alloc: Global,
    levels: usize,
    nullable: bool,
    from: &mut WordReader,
) -> Result<bool, ReadFault>
    requires strict { from.old.profile ≡ Strict }
    ensures taken { TakesIfMemory (λ m. m) result (value_marker_at
        (is_level_left levels) nullable (is_inside from.old) (left from.old)) (left from.new) }
    ensures level { IfOk result (λ m. m ≡ true → 0 < levels) }
    ensures on { OnOk result (MovesOn from.old from.new) }
{
    let there = bool::take(alloc, from)?;
    if !there && !nullable {
        return Err(ReadFault::UnexpectedNull);
    }
    if there && levels == 0 {
        return Err(ReadFault::BadValue);
    }
    Ok(there)
}

/// Notes the tag of a union and answers the field that it is the 0-based position of.
pub fn tag_item<'a>(
    spot: &Spot<'_>,
    fields: &'a [Field],
    from: &mut WordReader,
    items: &mut Row<Item>,
) -> Result<&'a Field, Stopped>
    requires small { length from.old.bytes ≤ 1048576 }
    ensures told { Tells (λ f. f.now) result (item spot.now.path.now kind.Tag
        (λ c. field_tag_at fields.entry.now (is_inside from.old) c) (left from.old))
        (left from.new) items.old items.new }
    ensures on { OnOk result (MovesOn from.old from.new) }
{
    let start = from.position();
    match field_tag(fields, from) {
        Ok(field) => {
            push(spot, ItemKind::Tag, from.position() - start, items)?;
            Ok(field)
        }
        Err(fault) => Err(stop_at(spot, fault)),
    }
}

#[tactic(auto, unfolding(crate::specs::Marks::field_tag_at, wire_model::specs::ReadOf::tag_at))]
fn field_tag<'a>(fields: &'a [Field], from: &mut WordReader) -> Result<&'a Field, ReadFault>
    ensures taken { TakesIfMemory (λ f. f.now) result
        (field_tag_at fields.entry.now (is_inside from.old) (left from.old)) (left from.new) }
    ensures on { OnOk result (MovesOn from.old from.new) }
{
    let word = from.word()?;
    if word < 0 {
        return Err(ReadFault::BadValue);
    }
    match fields.get(word as usize) {
        Some(field) => Ok(field),
        None => Err(ReadFault::BadValue),
    }
}
