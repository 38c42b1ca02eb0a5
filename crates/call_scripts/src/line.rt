//! The JSON of a line: its keys, its counts and the values of its types.
ghost use Rattle.std.specs.Prelude.{◌≡◌, ◌==◌, [], ◌∷◌, ◌++◌, length, IfOk, OnOk, option_map, string_bytes};
ghost use Rattle.std.specs.Str.{encode_utf8_all};
ghost use Rattle.json_values.specs.Refusal.{escaped, escaped_character};
ghost use Rattle.std.specs.List.{list_any};
ghost use Rattle.aidl_schema.specs.Same.{same_text};
ghost use Rattle.aidl_values.specs.Fits.{Fits};
ghost use Rattle.aidl_values.specs.View.{view};
ghost use Rattle.json_values.specs.FromJson.{from_json_of};
ghost use Rattle.serde_json.specs.Events.{items_len};
ghost use Rattle.serde_json.specs.Find.{get_member};
ghost use Rattle.serde_json.specs.View.{view as json_view, items_view, members_view};
ghost use Rattle.call_scripts.specs.Answers.{all_known, unknown_in};
ghost use Rattle.call_scripts.specs.Refusal.{placed};
ghost use Rattle.call_scripts.specs.Gives.{Gives, place_bytes};
ghost use Rattle.call_scripts.specs.Keys.{seen_keys};

use crate::refused::{Place, RefusedName, below, placed, refusal};
use aidl_schema::{AidlType, Schema};
use aidl_values::Value;
use json_values::{Fault, from_json, key_step};
use serde_json::{Map, Value as Json};
use std::alloc::Global;

/// Refuses the least key of an object that isn't known, by `UnknownKey` at the key.
pub fn check_keys(
    alloc: Global,
    known: &[&str],
    members: &Map<String, Json>,
    place: Place,
) -> Result<(), Fault<RefusedName>>
    ensures { Gives (λ _. tt) result (all_known
        (place_bytes place) (unknown_in (seen_keys known.now) (members_view members.now.entries))) }
{
    match unknown_key(known, members) {
        Some(key) => match key_step(alloc, key) {
            Ok(at) => Err(below(alloc, RefusedName::UnknownKey, place, at.as_str())),
            Err(_) => Err(Fault::OutOfMemory),
        },
        None => Ok(()),
    }
}

// The least key that isn't known.
fn unknown_key<'a>(known: &[&str], members: &'a Map<String, Json>) -> Option<&'a str>
    ensures { option_map (λ key. key.now) result
        ≡ unknown_in (seen_keys known.now) (members_view members.now.entries) }
{
    for (key, _) in members.iter() {
        if !is_known(known, key.as_str()) {
            return Some(key.as_str());
        }
    }
    None
}

fn is_known(known: &[&str], key: &str) -> bool
    ensures { result ≡ list_any (λ k. same_text k key.now) (seen_keys known.now) }
{
    for other in known {
        if *other == key {
            return true;
        }
    }
    false
}

/// The value of a key.
pub fn member_of<'a>(members: &'a Map<String, Json>, name: &str) -> Option<&'a Json>
    ensures { option_map (λ j. json_view j.now) result
        ≡ get_member name.now (members_view members.now.entries) }
{
    members.get(name)
}

/// Whether an array has exactly `count` items.
pub fn is_count(items: &[Json], count: usize) -> bool
    ensures json { result ≡ (items_len (items_view items.now) == count) }
    ensures count { result ≡ (length items.now == count) }
{
    items.len() == count
}

/// The value of a type that stands at `place`, by `from_json` of `json_values`. It refuses exactly what that refuses, by the same name, and
/// the place in the value comes behind `place` (own).
pub fn value_from(
    alloc: Global,
    schema: &Schema,
    ty: &AidlType,
    json: &Json,
    place: Place,
) -> Result<Value, Fault<RefusedName>>
    ensures gives { Gives view result (placed
        (place_bytes place) (from_json_of schema.now.decls 64 ty.now (json_view json.now))) }
    ensures fits { IfOk result (λ v. Fits schema.now.decls ty.now (view v)) }
{
    match from_json(alloc, schema, ty, json) {
        Ok(value) => Ok(value),
        Err(fault) => Err(placed(alloc, place, fault)),
    }
}
