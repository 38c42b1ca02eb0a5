//! Values of all items. A value with parts takes one level, and its parts are read with one less.
ghost use Rattle.std.specs.Prelude.{◌≡◌, ◌+◌, ◌<◌, ◌≤◌, true, false, length, map, slice_get, IfOk, OnOk, Ok, Err, MatchResult};
ghost use Rattle.std.specs.Option.{option_copied};
ghost use Rattle.aidl_values.specs.Data.{rec};
ghost use Rattle.aidl_values.specs.Given.{given_then};
ghost use Rattle.aidl_values.specs.View.{items_of, view, views};
ghost use Rattle.aidl_values.specs.steps.Levels.{is_level_left};
ghost use Rattle.marshal_plans.specs.Standing.{entries_of};
ghost use Rattle.parcel_words.specs.Place.{left, is_inside, MovesOn};
ghost use Rattle.parcel_words.specs.Taken.{TakesIfMemory, RefusesIfMemory};
ghost use Rattle.parcel_read.specs.steps.PlanDefault.{initial_by_plan};
ghost use Rattle.parcel_read.specs.steps.PlanRead.{item_at, plan_read, plan_parts};
ghost use Rattle.parcel_read.specs.steps.Rows.{as_record, row_at};
ghost use Rattle.wire_model.specs.ReadOf.{each_at, elements_at, array_at, fields_at, body_value_at, record_at, tagged_at, union_at};
ghost use Rattle.wire_model.specs.Status.{bad_value};

use crate::leaf::{long_from, text_from, word_from};
use crate::marks::{marker_from, tag_from};
use crate::parcel_plans::{ParcelPlans, Span};
use crate::raw::raw_from;
use crate::rows::row_of;
use aidl_base::{OutOfMemory, Row};
use aidl_values::{Elements, Fields, Value};
use marshal_plans::{PlanField, PlanId, PlanItem, WordKind};
use parcel_words::{ReadFault, WordReader};
use std::alloc::Global;
use std::rc::Rc;

/// Reads a value by the item of an id, with so many levels left. At most 64 records are open at once.
#[cycle(read)]
pub fn value_from(
    alloc: Global,
    plans: &mut ParcelPlans<'_>,
    id: PlanId,
    levels: usize,
    from: &mut WordReader,
) -> Result<Value, ReadFault>
    requires { length from.old.ends + levels ≤ 64 }
    ensures taken { TakesIfMemory view result (plan_read from.old.profile plans.old levels id
        (is_inside from.old) (left from.old)) (left from.new) }
    ensures on { OnOk result (MovesOn from.old from.new) }
    ensures same { plans.new ≡ plans.old }
{
    match plans.item(id) {
        Some(item) => item_from(alloc, plans, item, levels, from),
        // No id of plans is a number of no item.
        None => Err(ReadFault::BadValue),
    }
}

/// Reads a value by its item.
#[cycle(read)]
fn item_from(
    alloc: Global,
    plans: &mut ParcelPlans<'_>,
    item: PlanItem,
    levels: usize,
    from: &mut WordReader,
) -> Result<Value, ReadFault>
    requires { length from.old.ends + levels ≤ 64 }
    ensures taken { TakesIfMemory view result
        (item_at from.old.profile (is_level_left levels) (λ g. initial_by_plan plans.old g)
        (λ u j b. plan_parts from.old.profile plans.old levels u j b) plans.old.fields item
        (is_inside from.old) (left from.old)) (left from.new) }
    ensures on { OnOk result (MovesOn from.old from.new) }
    ensures same { plans.new ≡ plans.old }
{
    match item {
        PlanItem::Word { kind } => word_from(alloc, kind, from),
        PlanItem::Long => long_from(alloc, from),
        PlanItem::Text { nullable } => text_from(alloc, nullable, from),
        PlanItem::Raw { nullable } => bytes_from(alloc, nullable, levels, from),
        PlanItem::Seq { nullable, element } => {
            sequence_from(alloc, plans, nullable, element, levels, from)
        }
        PlanItem::Rec {
            nullable,
            first,
            count,
        } => {
            let span = Span { first, count };
            record_from(alloc, plans, nullable, span, levels, from)
        }
        PlanItem::Alt {
            nullable,
            first,
            count,
        } => {
            let fields = plans.entries(Span { first, count });
            union_from(alloc, plans, nullable, fields, levels, from)
        }
    }
}

/// Reads an array of bytes.
#[tactic(auto, unfolding(wire_model::specs::ReadOf::array_at, wire_model::specs::ReadOf::elements_at))]
fn bytes_from(
    alloc: Global,
    nullable: bool,
    levels: usize,
    from: &mut WordReader,
) -> Result<Value, ReadFault>
    ensures taken { TakesIfMemory view result (array_at from.old.profile (is_level_left levels)
        true nullable (λ b. Err bad_value) (is_inside from.old) (left from.old)) (left from.new) }
    ensures on { OnOk result (MovesOn from.old from.new) }
{
    let Some(count) = from.count(nullable)? else {
        return Ok(Value::Null);
    };
    if levels == 0 {
        return Err(ReadFault::BadValue);
    }
    let elements = raw_from(alloc, count, from)?;
    Ok(Value::Seq(elements))
}

/// Reads any other array or `List`.
#[cycle(read)]
#[tactic(auto, unfolding(wire_model::specs::ReadOf::array_at))]
fn sequence_from(
    alloc: Global,
    plans: &mut ParcelPlans<'_>,
    nullable: bool,
    element: PlanId,
    levels: usize,
    from: &mut WordReader,
) -> Result<Value, ReadFault>
    requires { length from.old.ends + levels ≤ 64 }
    ensures taken { TakesIfMemory view result
        (array_at from.old.profile (is_level_left levels) false nullable
        (λ b. plan_parts from.old.profile plans.old levels element (is_inside from.old) b)
        (is_inside from.old) (left from.old)) (left from.new) }
    ensures on { OnOk result (MovesOn from.old from.new) }
    ensures same { plans.new ≡ plans.old }
{
    let count = from.count(nullable)?;
    elements_from(alloc, plans, element, levels, count, from)
}

/// Reads the elements of a sequence, where a count of None is null.
#[cycle(read)]
#[tactic(auto, unfolding(wire_model::specs::ReadOf::elements_at))]
fn elements_from(
    alloc: Global,
    plans: &mut ParcelPlans<'_>,
    element: PlanId,
    levels: usize,
    count: Option<usize>,
    from: &mut WordReader,
) -> Result<Value, ReadFault>
    requires { length from.old.ends + levels ≤ 64 }
    ensures taken { TakesIfMemory view result
        (elements_at from.old.profile (is_level_left levels) false
        (λ b. plan_parts from.old.profile plans.old levels element (is_inside from.old) b)
        (is_inside from.old) count (left from.old)) (left from.new) }
    ensures on { OnOk result (MovesOn from.old from.new) }
    ensures same { plans.new ≡ plans.old }
{
    let Some(count) = count else {
        return Ok(Value::Null);
    };
    if levels == 0 {
        return Err(ReadFault::BadValue);
    }
    row_from(alloc, plans, element, levels, count, from)
}

/// Reads so many elements: numbers and truth values side by side, others as values.
#[cycle(read)]
fn row_from(
    alloc: Global,
    plans: &mut ParcelPlans<'_>,
    element: PlanId,
    levels: usize,
    count: usize,
    from: &mut WordReader,
) -> Result<Value, ReadFault>
    requires some { 0 < levels }
    requires room { length from.old.ends + levels ≤ 64 }
    ensures taken { TakesIfMemory view result
        (row_at (λ b. plan_parts from.old.profile plans.old levels element
        (is_inside from.old) b) count (left from.old)) (left from.new) }
    ensures on { OnOk result (MovesOn from.old from.new) }
    ensures same { plans.new ≡ plans.old }
{
    match plans.item(element) {
        Some(
            PlanItem::Word {
                kind: WordKind::Truth,
            },
        ) => row_of::<bool>(alloc, count, from),
        Some(
            PlanItem::Word {
                kind: WordKind::Char,
            },
        ) => row_of::<u16>(alloc, count, from),
        Some(
            PlanItem::Word {
                kind: WordKind::Int,
            },
        ) => row_of::<i32>(alloc, count, from),
        Some(PlanItem::Long) => row_of::<i64>(alloc, count, from),
        _ => {
            let values = items_from(alloc, plans, element, levels, count, from)?;
            Ok(Value::Seq(Elements::Values(values)))
        }
    }
}

/// Reads so many values of an item. Room is taken as they are read.
#[cycle(read)]
fn items_from(
    alloc: Global,
    plans: &mut ParcelPlans<'_>,
    element: PlanId,
    levels: usize,
    count: usize,
    from: &mut WordReader,
) -> Result<Row<Value>, ReadFault>
    requires some { 0 < levels }
    requires room { length from.old.ends + levels ≤ 64 }
    ensures taken { TakesIfMemory views result (each_at (λ b. plan_parts from.old.profile
        plans.old levels element (is_inside from.old) b) count (left from.old)) (left from.new) }
    ensures on { OnOk result (MovesOn from.old from.new) }
    ensures same { plans.new ≡ plans.old }
{
    let mut values = Vec::new(alloc);
    for _ in 0..count {
        let value = value_from(alloc, plans, element, levels - 1, from)?;
        values.push(value)?;
    }
    Ok(Row::from_vec(values))
}

/// Reads a parcelable.
#[cycle(read)]
#[tactic(auto, unfolding(wire_model::specs::ReadOf::record_at))]
fn record_from(
    alloc: Global,
    plans: &mut ParcelPlans<'_>,
    nullable: bool,
    span: Span,
    levels: usize,
    from: &mut WordReader,
) -> Result<Value, ReadFault>
    requires { length from.old.ends + levels ≤ 64 }
    ensures taken { TakesIfMemory view result (record_at from.old.profile
        (is_level_left levels) nullable (λ g. initial_by_plan plans.old g)
        (λ g b. plan_parts from.old.profile plans.old levels g.item true b)
        (entries_of plans.old.fields span.first span.count) (is_inside from.old) (left from.old))
        (left from.new) }
    ensures on { OnOk result (MovesOn from.old from.new) }
    ensures same { plans.new ≡ plans.old }
{
    if !marker_from(alloc, nullable, from)? {
        return Ok(Value::Null);
    }
    if levels == 0 {
        return Err(ReadFault::BadValue);
    }
    body_from(alloc, plans, span, levels, from)
}

/// Reads a parcelable after its marker, and goes to the end of its record, whatever stands after its fields.
#[cycle(read)]
fn body_from(
    alloc: Global,
    plans: &mut ParcelPlans<'_>,
    span: Span,
    levels: usize,
    from: &mut WordReader,
) -> Result<Value, ReadFault>
    requires some { 0 < levels }
    requires room { length from.old.ends + levels ≤ 64 }
    ensures taken { TakesIfMemory view result (body_value_at (λ g. initial_by_plan plans.old g)
        (λ g b. plan_parts from.old.profile plans.old levels g.item true b)
        (entries_of plans.old.fields span.first span.count) (is_inside from.old) (left from.old))
        (left from.new) }
    ensures on { OnOk result (MovesOn from.old from.new) }
    ensures same { plans.new ≡ plans.old }
{
    from.enter()?;
    let record = fields_from(alloc, plans, span, levels, from)?;
    from.leave();
    Ok(record)
}

/// Reads the fields of the record that is open: where its bytes end before a field, that and those behind it are defaults. Room is
/// taken as they are read.
#[cycle(read)]
fn fields_from(
    alloc: Global,
    plans: &mut ParcelPlans<'_>,
    span: Span,
    levels: usize,
    from: &mut WordReader,
) -> Result<Value, ReadFault>
    requires some { 0 < levels }
    requires inside { is_inside from.old ≡ true }
    requires room { length from.old.ends + levels ≤ 65 }
    ensures taken { MatchResult result
        (λ value. as_record (fields_at (λ g. initial_by_plan plans.old g)
        (λ g b. plan_parts from.old.profile plans.old levels g.item true b)
        (entries_of plans.old.fields span.first span.count) (left from.old)) ≡ Ok (view value))
        (λ fault. RefusesIfMemory fault (fields_at (λ g. initial_by_plan plans.old g)
        (λ g b. plan_parts from.old.profile plans.old levels g.item true b)
        (entries_of plans.old.fields span.first span.count) (left from.old))) }
    ensures on { OnOk result (MovesOn from.old from.new) }
    ensures same { plans.new ≡ plans.old }
{
    let mut values = Vec::new(alloc);
    for field in plans.entries(span) {
        if from.at_end() {
            let row = plans.defaults_of(alloc, span)?;
            let record = first_fields(alloc, Row::from_vec(values), row)?;
            return Ok(record);
        }
        let value = value_from(alloc, plans, field.item, levels - 1, from)?;
        values.push(value)?;
    }
    Ok(Value::Rec(Fields::Whole(Row::from_vec(values))))
}

/// A record of the values of its first fields, and the defaults of those behind them.
fn first_fields(
    alloc: Global,
    values: Row<Value>,
    defaults: Rc<Row<Value>>,
) -> Result<Value, OutOfMemory>
    requires { length values ≤ length defaults.value }
    ensures { IfOk result (λ v. view v
        ≡ rec (items_of (given_then (map view values) (map view defaults.value)))) }
{
    Ok(Value::Rec(Fields::first(alloc, values, defaults)?))
}

/// Reads a union.
#[cycle(read)]
#[tactic(auto, unfolding(wire_model::specs::ReadOf::union_at))]
fn union_from(
    alloc: Global,
    plans: &mut ParcelPlans<'_>,
    nullable: bool,
    fields: &[PlanField],
    levels: usize,
    from: &mut WordReader,
) -> Result<Value, ReadFault>
    requires { length from.old.ends + levels ≤ 64 }
    ensures taken { TakesIfMemory view result
        (union_at from.old.profile (is_level_left levels) nullable
        (λ g b. plan_parts from.old.profile plans.old levels g.item (is_inside from.old) b)
        fields.now (is_inside from.old) (left from.old)) (left from.new) }
    ensures on { OnOk result (MovesOn from.old from.new) }
    ensures same { plans.new ≡ plans.old }
{
    if !marker_from(alloc, nullable, from)? {
        return Ok(Value::Null);
    }
    if levels == 0 {
        return Err(ReadFault::BadValue);
    }
    tagged_from(alloc, plans, fields, levels, from)
}

/// Reads a union after its marker.
#[cycle(read)]
#[tactic(auto, unfolding(wire_model::specs::ReadOf::tagged_at))]
fn tagged_from(
    alloc: Global,
    plans: &mut ParcelPlans<'_>,
    fields: &[PlanField],
    levels: usize,
    from: &mut WordReader,
) -> Result<Value, ReadFault>
    requires some { 0 < levels }
    requires room { length from.old.ends + levels ≤ 64 }
    ensures taken { TakesIfMemory view result (tagged_at
        (λ g b. plan_parts from.old.profile plans.old levels g.item (is_inside from.old) b)
        fields.now (is_inside from.old) (left from.old)) (left from.new) }
    ensures on { OnOk result (MovesOn from.old from.new) }
    ensures same { plans.new ≡ plans.old }
{
    let tag = tag_from(from)?;
    match field_of(fields, tag) {
        None => Err(ReadFault::BadValue),
        Some(field) => {
            let value = value_from(alloc, plans, field.item, levels - 1, from)?;
            Ok(Value::Alt(tag, boxed(alloc, value)?))
        }
    }
}

/// The field that a tag names.
fn field_of(fields: &[PlanField], tag: u32) -> Option<&PlanField>
    ensures { option_copied result ≡ slice_get fields.now tag }
{
    fields.get(tag as usize)
}

/// A value in a box.
fn boxed(alloc: Global, value: Value) -> Result<Box<Value>, OutOfMemory>
    ensures { IfOk result (λ inner. view inner.value ≡ view value) }
{
    Ok(Box::new(alloc, value)?)
}
