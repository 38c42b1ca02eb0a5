//! The keys of a parcelable's object: which is the least that names no field.
ghost use Rattle.std.specs.Prelude.{◌≡◌, ◌<◌, option_map, IfOk, Ok, Err};
ghost use Rattle.std.specs.List.{count_by, list_any};
ghost use Rattle.serde_json.specs.View.{members_view};
ghost use Rattle.aidl_schema.specs.Holds.{AreApart};
ghost use Rattle.aidl_schema.specs.Types.{form_of};
ghost use Rattle.json_values.specs.FromJson as answer;
ghost use Rattle.json_writing.specs.Named.{fields_in};
ghost use Rattle.aidl_values.specs.Data.{Data};
ghost use Rattle.aidl_values.specs.View.{view};
ghost use Rattle.json_values.specs.Refusal.{Answer};
ghost use Rattle.json_values.specs.steps.Given.{after_keys, is_found};
ghost use Rattle.json_values.specs.steps.Gives.{Fails, Gives};

use crate::fault::{Fault, Reason, refused};
use crate::pointer::below_key;
use crate::reader::Reader;
use aidl_base::OutOfMemory;
use aidl_schema::{Base, Field};
use aidl_values::Value;
use serde_json::{Map, Value as Json};

// A record that was read, unless some key names no field: where as many fields are found as there are keys, each key names one.
pub fn known_record(
    reader: &mut Reader<'_>,
    base: Base,
    fields: &[Field],
    members: &Map<String, Json>,
    read: (Value, usize),
) -> Result<Value, Fault<Reason>>
    requires apart { AreApart (λ f. f.name.0) fields.now }
    requires found { read.1 ≡ count_by (is_found (members_view members.now.entries)) fields.now }
    requires declared { fields.now ≡ fields_in (form_of reader.old base) }
    ensures same { reader.new ≡ reader.old }
    ensures gives { Gives view result
        (after_keys fields.now (members_view members.now.entries) (Ok (view read.0))) }
{
    let (value, found) = read;
    if found == members.len() {
        return Ok(value);
    }
    match check_keys(reader, base, fields, members) {
        Ok(()) => Ok(value),
        Err(fault) => Err(fault),
    }
}

// A fault of a field, unless some key names no field, which is refused first.
pub fn known_first(
    reader: &mut Reader<'_>,
    base: Base,
    fields: &[Field],
    members: &Map<String, Json>,
    fault: Fault<Reason>,
) -> Fault<Reason>
    requires declared { fields.now ≡ fields_in (form_of reader.old base) }
    ensures same { reader.new ≡ reader.old }
    ensures fails { (read : Answer Data) → Fails fault read
        → Fails result (after_keys fields.now (members_view members.now.entries) read) }
{
    match check_keys(reader, base, fields, members) {
        Ok(()) => fault,
        Err(first) => first,
    }
}

// Refuses the least key that names no field.
fn check_keys(
    reader: &mut Reader<'_>,
    base: Base,
    fields: &[Field],
    members: &Map<String, Json>,
) -> Result<(), Fault<Reason>>
    requires declared { fields.now ≡ fields_in (form_of reader.old base) }
    ensures same { reader.new ≡ reader.old }
    ensures gives { Gives (λ _. tt) result
        (answer.known_from (answer.unknown_in fields.now (members_view members.now.entries))) }
{
    match unknown_key(reader, base, fields, members)? {
        Some(key) => {
            let fault = refused(reader.alloc(), Reason::UnknownKey);
            Err(below_key(reader.alloc(), key, fault))
        }
        None => Ok(()),
    }
}

// The least key that names no field.
fn unknown_key<'m>(
    reader: &mut Reader<'_>,
    base: Base,
    fields: &[Field],
    members: &'m Map<String, Json>,
) -> Result<Option<&'m str>, OutOfMemory>
    requires declared { fields.now ≡ fields_in (form_of reader.old base) }
    ensures same { reader.new ≡ reader.old }
    ensures key { IfOk result (λ o. option_map (λ key. key.now) o
        ≡ answer.unknown_in fields.now (members_view members.now.entries)) }
{
    for (key, _) in members.iter() {
        let name = key.as_str();
        let has = has_field(reader, base, fields, name)?;
        if !has {
            return Ok(Some(name));
        }
    }
    Ok(None)
}

// Some field has this name.
fn has_field(
    reader: &mut Reader<'_>,
    base: Base,
    fields: &[Field],
    key: &str,
) -> Result<bool, OutOfMemory>
    requires declared { fields.now ≡ fields_in (form_of reader.old base) }
    ensures same { reader.new ≡ reader.old }
    ensures has { IfOk result (λ has. has ≡ list_any (λ f. answer.has_name key.now f) fields.now) }
{
    let place = reader.field_place(base, fields, key)?;
    Ok(place.is_some())
}
