//! The items of a whole parcel, each with its offset.
ghost use Rattle.std.specs.Prelude.{◌≡◌, ◌≤◌, ◌-◌, ◌∷◌, ◌++◌, [], length, IfOk, OnOk};
ghost use Rattle.parcel_words.specs.Place.{left, MovesOn};
ghost use Rattle.parcel_explain.specs.Items as meant;
ghost use Rattle.parcel_explain.specs.declared.item.ItemKind.TheVariants as kind;
ghost use Rattle.parcel_explain.specs.steps.Notes.{MayNote, Tells, done};
ghost use Rattle.parcel_explain.specs.steps.Offsets.{at_offsets, some_at, total};

use crate::item::{Item, ItemKind};
use crate::noting::Stopped;
use crate::paths::{Spot, below_index};
use crate::values::value_items;
use aidl_base::{OutOfMemory, Profile, Row, Text};
use aidl_schema::{AidlType, Schema};
use parcel_words::WordReader;
use std::alloc::Global;

/// The items of a parcel's bytes, read strictly by the types of its values: each part of the bytes once, in order, at offsets in bytes. The
/// last says which bytes are left, where any are, or from which byte on a value can't be read, with the status. It takes at most 1,048,576
/// bytes, and answers only want of memory; bytes that no reading takes are items too (own; docs/EXPLAIN.md).
pub fn explain(
    alloc: Global,
    schema: &Schema,
    types: &[AidlType],
    bytes: &[u8],
) -> Result<Row<Item>, OutOfMemory>
    requires small { length bytes.now ≤ 1048576 }
    ensures { IfOk result (λ items. items ≡ meant.explained schema.now.decls types.now bytes.now) }
{
    let mut from = WordReader::new(Profile::Strict, bytes);
    let mut items = Row::new(alloc);
    match values_items(alloc, schema, types, &mut from, &mut items) {
        Ok(()) => with_left(items, bytes.len()),
        Err(Stopped::Wrong { path, status }) => { with_stop(items, bytes.len(), path, status) }
        Err(Stopped::OutOfMemory) => Err(OutOfMemory),
    }
}

// Notes the items of values, one after the other.
fn values_items(
    alloc: Global,
    schema: &Schema,
    types: &[AidlType],
    from: &mut WordReader,
    items: &mut Row<Item>,
) -> Result<(), Stopped>
    requires reader { MayNote from.old }
    requires outside { from.old.ends ≡ [] }
    ensures told { Tells done result (meant.values_items schema.now.decls 0 types.now
        (left from.old)) (left from.new) items.old items.new }
    ensures on { OnOk result (MovesOn from.old from.new) }
{
    let root = Text::empty();
    for index in 0..types.len() {
        let below = below_index(alloc, &root, index)?;
        let spot = Spot {
            alloc,
            schema,
            path: &below,
            levels: 64,
        };
        value_items(&spot, types[index], from, items)?;
    }
    Ok(())
}

// The items with their offsets, and the offset of their end, in bytes.
fn place(items: Row<Item>) -> (Row<Item>, usize)
    requires small { total items ≤ 1048576 }
    ensures { (result.0 ≡ at_offsets 0 items) × (result.1 ≡ total items) }
{
    let mut placed = items.into_vec();
    let mut at: usize = 0;
    for item in placed.iter_mut() {
        item.offset = at as u32;
        at += item.length as usize;
    }
    (Row::from_vec(placed), at)
}

// An item from an offset to the end of so many bytes.
fn item_to_end(offset: usize, count: usize, path: Text, kind: ItemKind) -> Item
    requires within { offset ≤ count }
    requires small { count ≤ 1048576 }
    ensures { result ≡ record {
      offset = offset;
      length = count - offset;
      path = path;
      kind = kind;
    } }
{
    Item {
        offset: offset as u32,
        length: (count - offset) as u32,
        path,
        kind,
    }
}

// The items of so many bytes with their offsets, and what is left behind them, if anything is.
fn with_left(items: Row<Item>, count: usize) -> Result<Row<Item>, OutOfMemory>
    requires within { total items ≤ count }
    requires small { count ≤ 1048576 }
    ensures { IfOk result (λ all. all
        ≡ at_offsets 0 items ++ some_at (total items) [] kind.Left (count - total items)) }
{
    let (mut placed, end) = place(items);
    if end < count {
        placed.push(item_to_end(end, count, Text::empty(), ItemKind::Left))?;
    }
    Ok(placed)
}

// The items of so many bytes with their offsets, and the stop behind them.
fn with_stop(
    items: Row<Item>,
    count: usize,
    path: Text,
    status: i32,
) -> Result<Row<Item>, OutOfMemory>
    requires within { total items ≤ count }
    requires small { count ≤ 1048576 }
    ensures { IfOk result (λ all. all ≡ at_offsets 0 items ++ record {
      offset = total items;
      length = count - total items;
      path = path;
      kind = kind.Stop status;
    } ∷ []) }
{
    let (mut placed, end) = place(items);
    placed.push(item_to_end(end, count, path, ItemKind::Stop(status)))?;
    Ok(placed)
}
