//! JSON objects of one key as unions.
ghost use Rattle.std.specs.Prelude.{◌≡◌, ◌<◌, ◌≤◌, length, option_map, string_bytes, Ok, Err};
ghost use Rattle.serde_json.specs.View.{view as json_view, members_view};
ghost use Rattle.aidl_schema.specs.Types.{form_of};
ghost use Rattle.aidl_values.specs.Data.{alt};
ghost use Rattle.aidl_values.specs.View.{view};
ghost use Rattle.json_values.specs.FromJson as answer;
ghost use Rattle.json_writing.specs.Named.{fields_in};
ghost use Rattle.json_values.specs.steps.Levels.{part_of, chosen_from};
ghost use Rattle.aidl_values.specs.steps.Levels.{is_level_left};
ghost use Rattle.json_values.specs.steps.Gives.{Gives};

use crate::fault::{Fault, Reason, refused};
use crate::pointer::below_key;
use crate::reader::Reader;
use crate::reading::read_part;
use aidl_schema::{Base, Field};
use aidl_values::Value;
use serde_json::{Map, Value as Json};
use std::alloc::Global;

// A union.
#[cycle(reading)]
pub fn read_union(
    reader: &mut Reader<'_>,
    levels: usize,
    base: Base,
    fields: &[Field],
    json: &Json,
) -> Result<Value, Fault<Reason>>
    requires few { levels ≤ 64 }
    requires fields { length fields.now ≤ 4096 }
    requires declared { fields.now ≡ fields_in (form_of reader.old base) }
    ensures same { reader.new ≡ reader.old }
    ensures gives { Gives view result (answer.union_from
        (is_level_left levels) (part_of reader.old levels) fields.now (json_view json.now)) }
{
    let Json::Object(members) = json else {
        return Err(refused(reader.alloc(), Reason::WrongShape));
    };
    let Some((key, inner)) = only_member(members) else {
        return Err(refused(reader.alloc(), Reason::WrongShape));
    };
    if levels == 0 {
        return Err(refused(reader.alloc(), Reason::TooDeep));
    }
    read_alternative(reader, levels, base, fields, key.as_str(), inner)
}

fn only_member(members: &Map<String, Json>) -> Option<(&String, &Json)>
    ensures { option_map (λ p. (string_bytes p.0.now, json_view p.1.now)) result
        ≡ answer.only_member (members_view members.now.entries) }
{
    if members.len() == 1 {
        members.first_key_value()
    } else {
        None
    }
}

// The one member of a union's object, under the field that it names.
#[cycle(reading)]
fn read_alternative(
    reader: &mut Reader<'_>,
    levels: usize,
    base: Base,
    fields: &[Field],
    key: &str,
    json: &Json,
) -> Result<Value, Fault<Reason>>
    requires left { 0 < levels }
    requires few { levels ≤ 64 }
    requires fields { length fields.now ≤ 4096 }
    requires declared { fields.now ≡ fields_in (form_of reader.old base) }
    ensures same { reader.new ≡ reader.old }
    ensures gives { Gives view result (answer.alternative_from
        (part_of reader.old levels) 0 fields.now key.now (json_view json.now)) }
{
    match reader.field_place(base, fields, key)? {
        Some(place) => read_chosen(reader, levels, &fields[place], place, key, json),
        None => {
            let fault = refused(reader.alloc(), Reason::UnknownKey);
            Err(below_key(reader.alloc(), key, fault))
        }
    }
}

// The value of a union's field, which is the one at a place.
#[cycle(reading)]
fn read_chosen(
    reader: &mut Reader<'_>,
    levels: usize,
    field: &Field,
    place: usize,
    key: &str,
    json: &Json,
) -> Result<Value, Fault<Reason>>
    requires left { 0 < levels }
    requires few { levels ≤ 64 }
    requires place { place < 4096 }
    ensures same { reader.new ≡ reader.old }
    ensures gives { Gives view result
        (chosen_from (part_of reader.old levels) place field.now key.now (json_view json.now)) }
{
    match read_part(reader, levels, field.ty, json) {
        Ok(value) => alternative(reader.alloc(), place as u32, value),
        Err(fault) => Err(below_key(reader.alloc(), key, fault)),
    }
}

fn alternative(alloc: Global, tag: u32, value: Value) -> Result<Value, Fault<Reason>>
    ensures { Gives view result (Ok (alt tag (view value))) }
{
    Ok(Value::Alt(tag, Box::new(alloc, value)?))
}
