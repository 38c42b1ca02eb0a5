//! Items of words and longs, one or many, of texts and of raw bytes. Each call ends where an item is wrong, or for want of memory.
ghost use Rattle.std.specs.Prelude.{◌≡◌, ◌≤◌, ◌^◌, ◌<◌, length, Some, IfOk, IfSome, OnOk};
ghost use Rattle.aidl_base.specs.declared.profile.Profile.TheVariants.{Strict};
ghost use Rattle.aidl_base.specs.Readings.{block_at, count_at, raw_at};
ghost use Rattle.parcel_words.specs.Place.{left, is_inside, MovesOn};
ghost use Rattle.parcel_explain.specs.Items.{block_item, bytes_item, elements_items, text_items, value_item};
ghost use Rattle.parcel_explain.specs.Noted.{item};
ghost use Rattle.parcel_explain.specs.declared.item.ItemKind.TheVariants as kind;
ghost use Rattle.parcel_explain.specs.steps.Notes.{MayNote, Tells, done};

use crate::item::{Item, ItemKind};
use crate::noting::{Stopped, push, push_some, push_with, stop_at, stop_with};
use crate::paths::{Spot, element_path, stem_of};
use aidl_base::{Row, Text};
use itoa::Buffer;
use parcel_words::{Wire, WordReader};
use std::alloc::Global;

/// Notes the item of a word or a long.
pub fn word_item<W: Wire>(
    spot: &Spot<'_>,
    from: &mut WordReader,
    items: &mut Row<Item>,
) -> Result<(), Stopped>
    requires small { length from.old.bytes ≤ 1048576 }
    ensures told { Tells done result (value_item spot.now.path.now (λ c. W.reading from.old.profile
        (is_inside from.old) c) (left from.old)) (left from.new) items.old items.new }
    ensures on { OnOk result (MovesOn from.old from.new) }
{
    let path = spot.path.try_clone(spot.alloc)?;
    word_with::<W>(spot.alloc, path, from, items)
}

// The same with a path that becomes the item's.
fn word_with<W: Wire>(
    alloc: Global,
    path: Text,
    from: &mut WordReader,
    items: &mut Row<Item>,
) -> Result<(), Stopped>
    requires small { length from.old.bytes ≤ 1048576 }
    ensures told { Tells done result (value_item path (λ c. W.reading from.old.profile
        (is_inside from.old) c) (left from.old)) (left from.new) items.old items.new }
    ensures on { OnOk result (MovesOn from.old from.new) }
{
    let start = from.position();
    match W::take(alloc, from) {
        Ok(_) => Ok(push_with(path, ItemKind::Value, from.position() - start, items)?),
        Err(fault) => Err(stop_with(path, fault)),
    }
}

/// Notes the items of so many words or longs, the elements of a value at this path.
pub fn words_items<W: Wire>(
    spot: &Spot<'_>,
    count: usize,
    from: &mut WordReader,
    items: &mut Row<Item>,
) -> Result<(), Stopped>
    requires reader { MayNote from.old }
    ensures told { Tells done result (elements_items (λ q b. value_item q (λ c. W.reading Strict
        (is_inside from.old) c) b) spot.now.path.now 0 count (left from.old))
        (left from.new) items.old items.new }
    ensures on { OnOk result (MovesOn from.old from.new) }
{
    let mut digits = Buffer::new();
    let mut stem = stem_of(spot.alloc, spot.path)?;
    for index in 0..count {
        let below = element_path(spot.alloc, &mut stem, &mut digits, index)?;
        word_with::<W>(spot.alloc, below, from, items)?;
    }
    Ok(())
}

/// Notes the items of a String: its count, and its block where it isn't null.
#[tactic(auto, unfolding(crate::specs::Items::text_items))]
pub fn text_items(
    spot: &Spot<'_>,
    nullable: bool,
    from: &mut WordReader,
    items: &mut Row<Item>,
) -> Result<(), Stopped>
    requires reader { MayNote from.old }
    ensures told { Tells done result (text_items nullable spot.now.path.now
        (is_inside from.old) (left from.old)) (left from.new) items.old items.new }
    ensures on { OnOk result (MovesOn from.old from.new) }
{
    match count_item(spot, nullable, from, items)? {
        Some(units) => block_item(spot, units, from, items),
        None => Ok(()),
    }
}

// Notes the count of a String and answers its units, or None for null.
fn count_item(
    spot: &Spot<'_>,
    nullable: bool,
    from: &mut WordReader,
    items: &mut Row<Item>,
) -> Result<Option<usize>, Stopped>
    requires small { length from.old.bytes ≤ 1048576 }
    ensures told { Tells (λ n. n) result (item spot.now.path.now kind.Count (λ c. count_at nullable
        (is_inside from.old) c) (left from.old)) (left from.new) items.old items.new }
    ensures few { IfOk result (λ n. IfSome n (λ units. units < 2 ^ 31)) }
    ensures on { OnOk result (MovesOn from.old from.new) }
{
    let start = from.position();
    match from.count(nullable) {
        Ok(count) => {
            push(spot, ItemKind::Count, from.position() - start, items)?;
            Ok(count)
        }
        Err(fault) => Err(stop_at(spot, fault)),
    }
}

// Notes the block of a text of so many UTF-16 units.
fn block_item(
    spot: &Spot<'_>,
    units: usize,
    from: &mut WordReader,
    items: &mut Row<Item>,
) -> Result<(), Stopped>
    requires reader { MayNote from.old }
    requires few { units < 2 ^ 31 }
    ensures told { Tells done result (block_item spot.now.path.now
        (is_inside from.old) (Some units) (left from.old)) (left from.new) items.old items.new }
    ensures on { OnOk result (MovesOn from.old from.new) }
{
    let start = from.position();
    match from.block(spot.alloc, units) {
        Ok(_) => Ok(push(spot, ItemKind::Block, from.position() - start, items)?),
        Err(fault) => Err(stop_at(spot, fault)),
    }
}

/// Notes so many raw bytes and their padding as one item; none is noted of no bytes.
pub fn bytes_item(
    spot: &Spot<'_>,
    count: usize,
    from: &mut WordReader,
    items: &mut Row<Item>,
) -> Result<(), Stopped>
    requires reader { MayNote from.old }
    ensures told { Tells done result (bytes_item spot.now.path.now (left from.old) (raw_at Strict count
        (is_inside from.old) (left from.old))) (left from.new) items.old items.new }
    ensures on { OnOk result (MovesOn from.old from.new) }
{
    let start = from.position();
    match from.raw(count) {
        Ok(_) => Ok(push_some(spot, ItemKind::Bytes, from.position() - start, items)?),
        Err(fault) => Err(stop_at(spot, fault)),
    }
}
