//! Items of all values. A value with parts takes one level, and its parts are noted with one less. Each call ends at the first wrong item, or
//! for want of memory.
ghost use Rattle.std.specs.Prelude.{◌≡◌, ◌+◌, ◌<◌, ◌≤◌, true, length, Some, OnOk};
ghost use Rattle.aidl_schema.specs.Types.{elem, form_of, is_one, is_raw};
ghost use Rattle.aidl_schema.specs.Seen.{seen};
ghost use Rattle.aidl_values.specs.steps.Levels.{is_level_left};
ghost use Rattle.parcel_words.specs.Place.{left, is_inside, MovesOn};
ghost use Rattle.parcel_explain.specs.Items as meant;
ghost use Rattle.parcel_explain.specs.steps.Notes.{MayNote, Tells, done, part_items};

use crate::item::{Item, ItemKind};
use crate::marks::{elements_count_item, marker_item, tag_item};
use crate::noting::{Stopped, push, push_some, stop_at};
use crate::paths::{Spot, below_name, element_path, stem_of};
use crate::words::{bytes_item, text_items, word_item, words_items};
use aidl_base::Row;
use aidl_schema::{AidlType, Field, Form, Shape, element, form_in, is_raw};
use itoa::Buffer;
use parcel_words::{ReadFault, WordReader};

/// Notes the items of a value of this type at a spot. It ends at the first wrong item, whose path and status it answers, or for want of memory.
/// At most 64 records are open at once.
#[cycle(note)]
#[tactic(auto)]
pub fn value_items(
    spot: &Spot<'_>,
    ty: AidlType,
    from: &mut WordReader,
    items: &mut Row<Item>,
) -> Result<(), Stopped>
    requires reader { MayNote from.old }
    requires room { length from.old.ends + spot.now.levels ≤ 64 }
    ensures told { Tells done result
        (meant.items_of spot.now.schema.now.decls spot.now.levels ty spot.now.path.now
        (is_inside from.old) (left from.old)) (left from.new) items.old items.new }
    ensures on { OnOk result (MovesOn from.old from.new) }
{
    match ty.shape {
        Shape::One => {
            let form = form_in(spot.schema, ty.base);
            one_items(spot, ty.nullable, form, from, items)
        }
        Shape::Array => sequence_items(spot, ty, from, items),
        Shape::List => sequence_items(spot, ty, from, items),
    }
}

// Notes the items of a value that is no sequence, by what its type means.
#[cycle(note)]
fn one_items(
    spot: &Spot<'_>,
    nullable: bool,
    form: Form<'_>,
    from: &mut WordReader,
    items: &mut Row<Item>,
) -> Result<(), Stopped>
    requires reader { MayNote from.old }
    requires room { length from.old.ends + spot.now.levels ≤ 64 }
    ensures told { Tells done result (meant.one_items (is_level_left spot.now.levels)
        (λ u q j b. part_items spot.now.schema.now.decls spot.now.levels u q j b)
        nullable spot.now.path.now (seen form.entry) (is_inside from.old) (left from.old))
        (left from.new) items.old items.new }
    ensures on { OnOk result (MovesOn from.old from.new) }
{
    match form {
        Form::Truth => word_item::<bool>(spot, from, items),
        Form::Byte => word_item::<i8>(spot, from, items),
        Form::Char => word_item::<u16>(spot, from, items),
        Form::Int => word_item::<i32>(spot, from, items),
        Form::Long => word_item::<i64>(spot, from, items),
        Form::Text => text_items(spot, nullable, from, items),
        Form::Parcelable(fields) => { record_items(spot, nullable, fields, from, items) }
        Form::Union(fields) => { union_items(spot, nullable, fields, from, items) }
        // What is no type has no items.
        Form::Nothing => Err(stop_at(spot, ReadFault::BadValue)),
    }
}

// Notes the items of an array or a List.
#[cycle(note)]
#[tactic(auto, unfolding(crate::specs::Items::sequence_items))]
fn sequence_items(
    spot: &Spot<'_>,
    ty: AidlType,
    from: &mut WordReader,
    items: &mut Row<Item>,
) -> Result<(), Stopped>
    requires reader { MayNote from.old }
    requires room { length from.old.ends + spot.now.levels ≤ 64 }
    ensures told { Tells done result (meant.sequence_items
        (is_level_left spot.now.levels) (is_raw spot.now.schema.now.decls ty) ty.nullable
        (λ q b. part_items spot.now.schema.now.decls spot.now.levels
        (elem spot.now.schema.now.decls ty) q (is_inside from.old) b) spot.now.path.now
        (is_inside from.old) (left from.old)) (left from.new) items.old items.new }
    ensures on { OnOk result (MovesOn from.old from.new) }
{
    match elements_count_item(spot, ty.nullable, from, items)? {
        Some(count) => counted_items(spot, ty, count, from, items),
        None => Ok(()),
    }
}

// Notes what follows a count.
#[cycle(note)]
fn counted_items(
    spot: &Spot<'_>,
    ty: AidlType,
    count: usize,
    from: &mut WordReader,
    items: &mut Row<Item>,
) -> Result<(), Stopped>
    requires reader { MayNote from.old }
    requires some { 0 < spot.now.levels }
    requires room { length from.old.ends + spot.now.levels ≤ 64 }
    ensures told { Tells done result (meant.counted_items (is_raw spot.now.schema.now.decls ty)
        (λ q b. part_items spot.now.schema.now.decls spot.now.levels
        (elem spot.now.schema.now.decls ty) q (is_inside from.old) b)
        spot.now.path.now (is_inside from.old) (Some count) (left from.old))
        (left from.new) items.old items.new }
    ensures on { OnOk result (MovesOn from.old from.new) }
{
    if is_raw(spot.schema, ty) {
        return bytes_item(spot, count, from, items);
    }
    let element = element(spot.schema, ty);
    elements_items(spot, element, count, from, items)
}

// Notes the items of so many elements, by what their type means, which is looked up once where they are words or longs.
#[cycle(note)]
fn elements_items(
    spot: &Spot<'_>,
    element: AidlType,
    count: usize,
    from: &mut WordReader,
    items: &mut Row<Item>,
) -> Result<(), Stopped>
    requires reader { MayNote from.old }
    requires some { 0 < spot.now.levels }
    requires room { length from.old.ends + spot.now.levels ≤ 64 }
    requires one { is_one element.shape ≡ true }
    ensures told { Tells done result (meant.elements_items
        (λ q b. part_items spot.now.schema.now.decls spot.now.levels element q (is_inside from.old)
        b) spot.now.path.now 0 count (left from.old)) (left from.new) items.old items.new }
    ensures on { OnOk result (MovesOn from.old from.new) }
{
    match form_in(spot.schema, element.base) {
        Form::Truth => words_items::<bool>(spot, count, from, items),
        Form::Byte => words_items::<i8>(spot, count, from, items),
        Form::Char => words_items::<u16>(spot, count, from, items),
        Form::Int => words_items::<i32>(spot, count, from, items),
        Form::Long => words_items::<i64>(spot, count, from, items),
        _ => each_items(spot, element, count, from, items),
    }
}

// Notes the items of so many elements of any type.
#[cycle(note)]
fn each_items(
    spot: &Spot<'_>,
    element: AidlType,
    count: usize,
    from: &mut WordReader,
    items: &mut Row<Item>,
) -> Result<(), Stopped>
    requires reader { MayNote from.old }
    requires some { 0 < spot.now.levels }
    requires room { length from.old.ends + spot.now.levels ≤ 64 }
    ensures told { Tells done result (meant.elements_items
        (λ q b. part_items spot.now.schema.now.decls spot.now.levels element q (is_inside from.old)
        b) spot.now.path.now 0 count (left from.old)) (left from.new) items.old items.new }
    ensures on { OnOk result (MovesOn from.old from.new) }
{
    let mut digits = Buffer::new();
    let mut stem = stem_of(spot.alloc, spot.path)?;
    for index in 0..count {
        let below = element_path(spot.alloc, &mut stem, &mut digits, index)?;
        let part = Spot {
            alloc: spot.alloc,
            schema: spot.schema,
            path: &below,
            levels: spot.levels - 1,
        };
        value_items(&part, element, from, items)?;
    }
    Ok(())
}

// Notes the items of a parcelable.
#[cycle(note)]
#[tactic(auto, unfolding(crate::specs::Items::record_items))]
fn record_items(
    spot: &Spot<'_>,
    nullable: bool,
    fields: &[Field],
    from: &mut WordReader,
    items: &mut Row<Item>,
) -> Result<(), Stopped>
    requires reader { MayNote from.old }
    requires room { length from.old.ends + spot.now.levels ≤ 64 }
    ensures told { Tells done result (meant.record_items (is_level_left spot.now.levels) nullable
        (λ u q b. part_items spot.now.schema.now.decls spot.now.levels u q true b)
        spot.now.path.now fields.now (is_inside from.old) (left from.old))
        (left from.new) items.old items.new }
    ensures on { OnOk result (MovesOn from.old from.new) }
{
    if !marker_item(spot, nullable, from, items)? {
        return Ok(());
    }
    body_items(spot, fields, from, items)
}

// Notes the items of a parcelable after its marker.
#[cycle(note)]
fn body_items(
    spot: &Spot<'_>,
    fields: &[Field],
    from: &mut WordReader,
    items: &mut Row<Item>,
) -> Result<(), Stopped>
    requires reader { MayNote from.old }
    requires some { 0 < spot.now.levels }
    requires room { length from.old.ends + spot.now.levels ≤ 64 }
    ensures told { Tells done result (meant.body_items
        (λ u q b. part_items spot.now.schema.now.decls spot.now.levels u q true b) spot.now.path.now
        fields.now (is_inside from.old) (left from.old)) (left from.new) items.old items.new }
    ensures on { OnOk result (MovesOn from.old from.new) }
{
    if let Err(fault) = from.enter() {
        return Err(stop_at(spot, fault));
    }
    push(spot, ItemKind::Size, 4, items)?;
    fields_items(spot, fields, from, items)?;
    let start = from.position();
    from.leave();
    push_some(spot, ItemKind::Tail, from.position() - start, items)?;
    Ok(())
}

// Notes the items of the fields of the record that is open, as far as its bytes go.
#[cycle(note)]
fn fields_items(
    spot: &Spot<'_>,
    fields: &[Field],
    from: &mut WordReader,
    items: &mut Row<Item>,
) -> Result<(), Stopped>
    requires reader { MayNote from.old }
    requires some { 0 < spot.now.levels }
    requires inside { is_inside from.old ≡ true }
    requires room { length from.old.ends + spot.now.levels ≤ 65 }
    ensures told { Tells done result (meant.fields_items
        (λ u q b. part_items spot.now.schema.now.decls spot.now.levels u q true b)
        spot.now.path.now fields.now (left from.old)) (left from.new) items.old items.new }
    ensures on { OnOk result (MovesOn from.old from.new) }
{
    for field in fields {
        if from.at_end() {
            return Ok(());
        }
        let below = below_name(spot.alloc, spot.path, field.name.0.as_str())?;
        let part = Spot {
            alloc: spot.alloc,
            schema: spot.schema,
            path: &below,
            levels: spot.levels - 1,
        };
        value_items(&part, field.ty, from, items)?;
    }
    Ok(())
}

// Notes the items of a union.
#[cycle(note)]
#[tactic(auto, unfolding(crate::specs::Items::union_items))]
fn union_items(
    spot: &Spot<'_>,
    nullable: bool,
    fields: &[Field],
    from: &mut WordReader,
    items: &mut Row<Item>,
) -> Result<(), Stopped>
    requires reader { MayNote from.old }
    requires room { length from.old.ends + spot.now.levels ≤ 64 }
    ensures told { Tells done result (meant.union_items (is_level_left spot.now.levels) nullable
        (λ u q b. part_items spot.now.schema.now.decls spot.now.levels u q (is_inside from.old) b)
        spot.now.path.now fields.now (is_inside from.old) (left from.old))
        (left from.new) items.old items.new }
    ensures on { OnOk result (MovesOn from.old from.new) }
{
    if !marker_item(spot, nullable, from, items)? {
        return Ok(());
    }
    chosen_items(spot, fields, from, items)
}

// Notes the items of a union after its marker.
#[cycle(note)]
#[tactic(auto, unfolding(crate::specs::Items::chosen_items))]
fn chosen_items(
    spot: &Spot<'_>,
    fields: &[Field],
    from: &mut WordReader,
    items: &mut Row<Item>,
) -> Result<(), Stopped>
    requires reader { MayNote from.old }
    requires some { 0 < spot.now.levels }
    requires room { length from.old.ends + spot.now.levels ≤ 64 }
    ensures told { Tells done result (meant.chosen_items (λ u q b. part_items
        spot.now.schema.now.decls spot.now.levels u q (is_inside from.old) b) spot.now.path.now
        fields.now (is_inside from.old) (left from.old)) (left from.new) items.old items.new }
    ensures on { OnOk result (MovesOn from.old from.new) }
{
    let field = tag_item(spot, fields, from, items)?;
    let below = below_name(spot.alloc, spot.path, field.name.0.as_str())?;
    let part = Spot {
        alloc: spot.alloc,
        schema: spot.schema,
        path: &below,
        levels: spot.levels - 1,
    };
    value_items(&part, field.ty, from, items)
}
