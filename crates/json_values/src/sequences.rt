//! JSON arrays as arrays and Lists.
ghost use Rattle.std.specs.Prelude.{◌≡◌, ◌<◌, ◌≤◌, decimal, Ok, Err};
ghost use Rattle.serde_json.specs.View.{view as json_view, items_view};
ghost use Rattle.aidl_values.specs.View.{view, views};
ghost use Rattle.json_values.specs.FromJson as answer;
ghost use Rattle.json_values.specs.Refusal.{within};
ghost use Rattle.json_values.specs.steps.Levels.{part_of};
ghost use Rattle.aidl_values.specs.steps.Levels.{is_level_left};
ghost use Rattle.json_values.specs.steps.Gives.{Gives};

use crate::fault::{Fault, Reason, refused};
use crate::pointer::below_index;
use crate::reader::Reader;
use crate::reading::read_part;
use crate::side_by_side::plain_sequence;
use aidl_base::Row;
use aidl_schema::AidlType;
use aidl_values::{Elements, Value};
use serde_json::Value as Json;

// An array or a List of a type.
#[cycle(reading)]
pub fn read_sequence(
    reader: &mut Reader<'_>,
    levels: usize,
    ty: AidlType,
    json: &Json,
) -> Result<Value, Fault<Reason>>
    requires few { levels ≤ 64 }
    ensures same { reader.new ≡ reader.old }
    ensures gives { Gives view result (answer.sequence_from
        (is_level_left levels) (part_of reader.old levels ty) (json_view json.now)) }
{
    let Json::Array(items) = json else {
        return Err(refused(reader.alloc(), Reason::WrongShape));
    };
    if levels == 0 {
        return Err(refused(reader.alloc(), Reason::TooDeep));
    }
    read_elements(reader, levels, ty, items.as_slice())
}

// Numbers and truth values, of which there may be many, are read side by side.
#[cycle(reading)]
fn read_elements(
    reader: &mut Reader<'_>,
    levels: usize,
    ty: AidlType,
    items: &[Json],
) -> Result<Value, Fault<Reason>>
    requires left { 0 < levels }
    requires few { levels ≤ 64 }
    ensures same { reader.new ≡ reader.old }
    ensures gives { Gives view result
        (answer.elements_from (part_of reader.old levels ty) (items_view items.now)) }
{
    if let Some(value) = plain_sequence(reader.alloc(), ty, items)? {
        return Ok(value);
    }
    match read_items(reader, levels, ty, items) {
        Ok(values) => Ok(Value::Seq(Elements::Values(values))),
        Err(fault) => Err(fault),
    }
}

#[cycle(reading)]
fn read_items(
    reader: &mut Reader<'_>,
    levels: usize,
    ty: AidlType,
    items: &[Json],
) -> Result<Row<Value>, Fault<Reason>>
    requires left { 0 < levels }
    requires few { levels ≤ 64 }
    ensures same { reader.new ≡ reader.old }
    ensures gives { Gives views result
        (answer.items_from (part_of reader.old levels ty) 0 (items_view items.now)) }
{
    let mut values = Vec::with_capacity(reader.alloc(), items.len())?;
    for (i, item) in items.iter().enumerate() {
        values.push(read_item(reader, levels, ty, i, item)?)?;
    }
    Ok(Row::from_vec(values))
}

#[cycle(reading)]
fn read_item(
    reader: &mut Reader<'_>,
    levels: usize,
    ty: AidlType,
    index: usize,
    json: &Json,
) -> Result<Value, Fault<Reason>>
    requires left { 0 < levels }
    requires few { levels ≤ 64 }
    ensures same { reader.new ≡ reader.old }
    ensures gives { Gives view result
        (within (decimal index) (part_of reader.old levels ty (json_view json.now))) }
{
    match read_part(reader, levels, ty, json) {
        Ok(value) => Ok(value),
        Err(fault) => Err(below_index(reader.alloc(), index, fault)),
    }
}
