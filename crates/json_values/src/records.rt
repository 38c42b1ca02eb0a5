//! JSON objects as parcelables, with the defaults of missing fields.
ghost use Rattle.std.specs.Prelude.{◌≡◌, ◌<◌, ◌≤◌, drop, false, is_some, length, map, option_map, take, true, IfOk, Ok, Err};
ghost use Rattle.std.specs.List.{count_by};
ghost use Rattle.serde_json.specs.Events.{members_len};
ghost use Rattle.serde_json.specs.Find.{get_member};
ghost use Rattle.serde_json.specs.View.{view as json_view, members_view};
ghost use Rattle.aidl_schema.specs.Holds.{AreApart};
ghost use Rattle.aidl_schema.specs.Types.{form_of};
ghost use Rattle.aidl_values.specs.Data.{depth_of, rec};
ghost use Rattle.aidl_values.specs.Sound.{initial_in};
ghost use Rattle.aidl_values.specs.View.{items_of, view};
ghost use Rattle.aidl_values.proofs.lemmas.Fronts.{with_front};
ghost use Rattle.json_values.specs.FromJson as answer;
ghost use Rattle.json_writing.specs.Named.{bytes_of, fields_in};
ghost use Rattle.json_values.specs.Refusal.{escaped, within};
ghost use Rattle.json_values.specs.steps.Defaults.{HasDefaultAt, datas_of, level_of};
ghost use Rattle.json_values.specs.steps.Given.{GivesMember, as_record, given_or, is_found, named_from};
ghost use Rattle.json_values.specs.steps.Levels.{part_of, default_in};
ghost use Rattle.aidl_values.specs.steps.Levels.{is_level_left};
ghost use Rattle.json_values.specs.steps.Gives.{Gives};

use crate::default_rows::Defaults;
use crate::fault::{Fault, Reason, refused};
use crate::given::Given;
use crate::keys::{known_first, known_record};
use crate::pointer::below_key;
use crate::reader::Reader;
use crate::reading::read_part;
use aidl_base::Row;
use aidl_schema::{Base, Field};
use aidl_values::{Fields, Value};
use serde_json::{Map, Value as Json};

// A parcelable.
#[cycle(reading)]
pub fn read_record(
    reader: &mut Reader<'_>,
    levels: usize,
    base: Base,
    fields: &[Field],
    json: &Json,
) -> Result<Value, Fault<Reason>>
    requires few { levels ≤ 64 }
    requires apart { AreApart (λ f. f.name.0) fields.now }
    requires fields { length fields.now ≤ 4096 }
    requires declared { fields.now ≡ fields_in (form_of reader.old base) }
    ensures same { reader.new ≡ reader.old }
    ensures gives { Gives view result (answer.record_from
        (is_level_left levels) (default_in reader.old levels) (part_of reader.old levels)
        fields.now (json_view json.now)) }
{
    let Json::Object(members) = json else {
        return Err(refused(reader.alloc(), Reason::WrongShape));
    };
    if levels == 0 {
        return Err(refused(reader.alloc(), Reason::TooDeep));
    }
    read_object(reader, levels, base, fields, members)
}

// The fields are read before the keys are looked at: only where fewer are found than there are keys, or a field is refused, some key may
// name none.
#[cycle(reading)]
fn read_object(
    reader: &mut Reader<'_>,
    levels: usize,
    base: Base,
    fields: &[Field],
    members: &Map<String, Json>,
) -> Result<Value, Fault<Reason>>
    requires left { 0 < levels }
    requires few { levels ≤ 64 }
    requires apart { AreApart (λ f. f.name.0) fields.now }
    requires fields { length fields.now ≤ 4096 }
    requires declared { fields.now ≡ fields_in (form_of reader.old base) }
    ensures same { reader.new ≡ reader.old }
    ensures gives { Gives view result
        (answer.object_from (default_in reader.old levels)
        (part_of reader.old levels) fields.now (members_view members.now.entries)) }
{
    match read_fields(reader, levels, base, fields, members) {
        Ok(read) => known_record(reader, base, fields, members, read),
        Err(fault) => Err(known_first(reader, base, fields, members, fault)),
    }
}

// The fields, and how many of them have a member.
#[cycle(reading)]
fn read_fields(
    reader: &mut Reader<'_>,
    levels: usize,
    base: Base,
    fields: &[Field],
    members: &Map<String, Json>,
) -> Result<(Value, usize), Fault<Reason>>
    requires left { 0 < levels }
    requires few { levels ≤ 64 }
    requires apart { AreApart (λ f. f.name.0) fields.now }
    requires fields { length fields.now ≤ 4096 }
    requires declared { fields.now ≡ fields_in (form_of reader.old base) }
    ensures same { reader.new ≡ reader.old }
    ensures gives { Gives (λ read. view read.0) result (as_record (answer.fields_from
        (default_in reader.old levels) (part_of reader.old levels) fields.now
        (λ key. get_member key (members_view members.now.entries)))) }
    ensures found { IfOk result (λ read. read.1
        ≡ count_by (is_found (members_view members.now.entries)) fields.now) }
{
    let mut values = Vec::with_capacity(reader.alloc(), fields.len().min(members.len()))?;
    for field in fields {
        match read_given(reader, levels, field, members)? {
            Some(value) => values.push(value)?,
            None => return read_behind(reader, levels, base, fields, members, values),
        }
    }
    let found = values.len();
    let fields = Fields::Whole(Row::from_vec(values));
    Ok((Value::Rec(fields), found))
}

// The same, where the first fields have these values, and the next has no member: of those without a member the defaults are shared.
#[cycle(reading)]
fn read_behind(
    reader: &mut Reader<'_>,
    levels: usize,
    base: Base,
    fields: &[Field],
    members: &Map<String, Json>,
    values: Vec<Value>,
) -> Result<(Value, usize), Fault<Reason>>
    requires left { 0 < levels }
    requires few { levels ≤ 64 }
    requires apart { AreApart (λ f. f.name.0) fields.now }
    requires fields { length fields.now ≤ 4096 }
    requires declared { fields.now ≡ fields_in (form_of reader.old base) }
    requires some { length values.items ≤ length fields.now }
    requires read { with_front (map view values.items) (answer.fields_from
        (default_in reader.old levels) (part_of reader.old levels)
        (drop (length values.items) fields.now)
        (λ key. get_member key (members_view members.now.entries)))
        ≡ answer.fields_from (default_in reader.old levels) (part_of reader.old levels) fields.now
        (λ key. get_member key (members_view members.now.entries)) }
    requires found { length values.items ≡ count_by (is_found (members_view members.now.entries))
        (take (length values.items) fields.now) }
    ensures same { reader.new ≡ reader.old }
    ensures gives { Gives (λ read. view read.0) result (as_record (answer.fields_from
        (default_in reader.old levels) (part_of reader.old levels) fields.now
        (λ key. get_member key (members_view members.now.entries)))) }
    ensures found { IfOk result (λ read. read.1
        ≡ count_by (is_found (members_view members.now.entries)) fields.now) }
{
    let mut i = values.len();
    let defaults = reader.default_values(base)?;
    let mut given = Given::first(reader.alloc(), values)?;
    while i < fields.len() && !are_done(&given, members, &defaults, levels) {
        let value = read_field(reader, levels, &fields[i], members, i, &defaults)?;
        given.put(i, value)?;
        i += 1;
    }
    let found = given.len();
    Ok((given.into_record(reader.alloc(), &defaults)?, found))
}

// Whether all members are found, and the defaults of the other fields fit. False says nothing.
fn are_done(given: &Given, members: &Map<String, Json>, defaults: &Defaults, levels: usize) -> bool
    requires few { levels ≤ 64 }
    requires whole { defaults.now.whole ≡ level_of (rec (items_of (datas_of defaults.now))) }
    ensures { result ≡ true
        → (members_len (members_view members.now.entries) ≡ length given.now.values.items)
        × (depth_of (rec (items_of (datas_of defaults.now))) ≤ levels) }
{
    given.len() == members.len() && defaults.fit(levels)
}

// The value of a field's member, or None where it has none, and its default fits.
#[cycle(reading)]
fn read_field(
    reader: &mut Reader<'_>,
    levels: usize,
    field: &Field,
    members: &Map<String, Json>,
    i: usize,
    defaults: &Defaults,
) -> Result<Option<Value>, Fault<Reason>>
    requires left { 0 < levels }
    requires few { levels ≤ 64 }
    requires default { HasDefaultAt reader.old field.now defaults.now i }
    ensures same { reader.new ≡ reader.old }
    ensures gives { Gives (λ value. given_or value (initial_in reader.old field.now))
        result (named_from (default_in reader.old levels) (part_of reader.old levels)
        (members_view members.now.entries) field.now) }
    ensures found { IfOk result (λ value. is_some value
        ≡ is_found (members_view members.now.entries) field.now) }
{
    match read_given(reader, levels, field, members) {
        Ok(Some(value)) => Ok(Some(value)),
        Ok(None) => left_out(reader, levels, field, i, defaults),
        Err(fault) => Err(fault),
    }
}

// Refuses a field that is left out and whose default has too many levels.
fn left_out(
    reader: &Reader<'_>,
    levels: usize,
    field: &Field,
    i: usize,
    defaults: &Defaults,
) -> Result<Option<Value>, Fault<Reason>>
    requires few { levels ≤ 64 }
    requires default { HasDefaultAt reader.now field.now defaults.now i }
    ensures gives { Gives (λ value. given_or value (initial_in reader.now field.now)) result
        (within (escaped (bytes_of field.now.name)) (default_in reader.now levels field.now)) }
    ensures none { IfOk result (λ value. is_some value ≡ false) }
{
    if defaults.fits(i, levels) {
        return Ok(None);
    }
    let fault = refused(reader.alloc(), Reason::TooDeep);
    Err(below_key(reader.alloc(), field.name.0.as_str(), fault))
}

// The value of a field's member, or None where it has none.
#[cycle(reading)]
fn read_given(
    reader: &mut Reader<'_>,
    levels: usize,
    field: &Field,
    members: &Map<String, Json>,
) -> Result<Option<Value>, Fault<Reason>>
    requires left { 0 < levels }
    requires few { levels ≤ 64 }
    ensures same { reader.new ≡ reader.old }
    ensures gives { GivesMember (default_in reader.old levels) (part_of reader.old levels)
        (members_view members.now.entries) field.now result }
{
    let name = field.name.0.as_str();
    let Some(json) = member_of(members, name) else {
        return Ok(None);
    };
    match read_part(reader, levels, field.ty, json) {
        Ok(value) => Ok(Some(value)),
        Err(fault) => Err(below_key(reader.alloc(), name, fault)),
    }
}

fn member_of<'a>(members: &'a Map<String, Json>, name: &str) -> Option<&'a Json>
    ensures { option_map (λ j. json_view j.now) result
        ≡ get_member name.now (members_view members.now.entries) }
{
    members.get(name)
}
