//! The defaults of fields that a record leaves out, by plans.
ghost use Rattle.std.specs.Prelude.{◌≡◌, if◌then◌else◌, map, IfOk};
ghost use Rattle.aidl_values.specs.Data.{null, seq, none};
ghost use Rattle.aidl_values.specs.View.{view};
ghost use Rattle.parcel_read.specs.steps.PlanDefault.{entry_default, first_default, initial_by_plan, item_default, plan_default, plan_default_parts, word_default};

use aidl_base::{OutOfMemory, Row, Text};
use aidl_values::{Elements, Fields, Value, value_of};
use marshal_plans::{PlanField, PlanId, PlanItem, Plans, WordKind};
use std::alloc::Global;

// The fuel of the defaults of fields, of which each level of parts takes one. It never runs out: the defaults of a valid schema have
// at most 32 levels.
const FUEL: usize = 34;

/// The defaults of fields.
pub fn initials_of(
    alloc: Global,
    plans: &Plans,
    fields: &[PlanField],
) -> Result<Row<Value>, OutOfMemory>
    ensures { IfOk result (λ values. map view values
        ≡ map (λ g. initial_by_plan plans.now g) fields.now) }
{
    initials(alloc, plans, fields, FUEL)
}

// The default of an item whose parts nest at most `levels` deep.
#[cycle(default)]
fn default_within(
    alloc: Global,
    plans: &Plans,
    id: PlanId,
    levels: usize,
) -> Result<Value, OutOfMemory>
    ensures { IfOk result (λ v. view v ≡ plan_default levels plans.now id) }
{
    default_of_item(alloc, plans, plans.item(id), levels)
}

#[cycle(default)]
fn default_of_item(
    alloc: Global,
    plans: &Plans,
    item: Option<PlanItem>,
    levels: usize,
) -> Result<Value, OutOfMemory>
    ensures { IfOk result (λ v. view v
        ≡ item_default (λ u. plan_default_parts levels plans.now u) plans.now.fields item) }
{
    match item {
        None => Ok(Value::Null),
        Some(PlanItem::Word { kind }) => Ok(word_default(kind)),
        Some(PlanItem::Long) => Ok(Value::Number(0)),
        Some(PlanItem::Text { nullable: true }) => Ok(Value::Null),
        Some(PlanItem::Text { nullable: false }) => Ok(Value::Text(Text::empty())),
        Some(PlanItem::Raw { nullable }) => Ok(no_elements(alloc, nullable)),
        Some(PlanItem::Seq { nullable, .. }) => Ok(no_elements(alloc, nullable)),
        Some(PlanItem::Rec { nullable: true, .. }) => Ok(Value::Null),
        Some(
            PlanItem::Rec {
                nullable: false,
                first,
                count,
            },
        ) => {
            let values = initials(alloc, plans, plans.entries(first, count), levels)?;
            Ok(Value::Rec(Fields::Whole(values)))
        }
        Some(PlanItem::Alt { nullable: true, .. }) => Ok(Value::Null),
        Some(
            PlanItem::Alt {
                nullable: false,
                first,
                count,
            },
        ) => alternative_of(alloc, plans, plans.entries(first, count), levels),
    }
}

fn word_default(kind: WordKind) -> Value
    ensures { view result ≡ word_default kind }
{
    match kind {
        WordKind::Truth => Value::Truth(false),
        WordKind::Byte | WordKind::Char | WordKind::Int => Value::Number(0),
    }
}

fn no_elements(alloc: Global, nullable: bool) -> Value
    ensures { view result ≡ (if nullable then null else seq none) }
{
    if nullable {
        return Value::Null;
    }
    Value::Seq(Elements::Values(Row::new(alloc)))
}

#[cycle(default)]
fn alternative_of(
    alloc: Global,
    plans: &Plans,
    fields: &[PlanField],
    levels: usize,
) -> Result<Value, OutOfMemory>
    ensures { IfOk result (λ v. view v
        ≡ first_default (λ u. plan_default_parts levels plans.now u) fields.now) }
{
    match fields {
        // No union of a valid schema is without fields.
        [] => Ok(Value::Null),
        [first, ..] => {
            let value = initial(alloc, plans, first, levels)?;
            Ok(Value::Alt(0, Box::new(alloc, value)?))
        }
    }
}

#[cycle(default)]
fn initials(
    alloc: Global,
    plans: &Plans,
    fields: &[PlanField],
    levels: usize,
) -> Result<Row<Value>, OutOfMemory>
    ensures { IfOk result (λ values. map view values
        ≡ map (λ g. entry_default (λ u. plan_default_parts levels plans.now u) g) fields.now) }
{
    let mut values = Vec::with_capacity(alloc, fields.len())?;
    for field in fields {
        values.push(initial(alloc, plans, field, levels)?)?;
    }
    Ok(Row::from_vec(values))
}

/// The default of a field: its initializer as a value, or else the default of its item.
#[cycle(default)]
fn initial(
    alloc: Global,
    plans: &Plans,
    field: &PlanField,
    levels: usize,
) -> Result<Value, OutOfMemory>
    ensures { IfOk result (λ v. view v
        ≡ entry_default (λ u. plan_default_parts levels plans.now u) field.now) }
{
    match &field.initial {
        Some(constant) => value_of(alloc, constant),
        None if levels == 0 => Ok(Value::Null),
        None => default_within(alloc, plans, field.item, levels - 1),
    }
}
