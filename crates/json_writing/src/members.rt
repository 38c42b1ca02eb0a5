//! The members of the object of a parcelable, sorted by their keys.
ghost use Rattle.std.specs.Prelude.{◌≡◌, ◌++◌, ◌∷◌, [], IfOk, string_bytes};
ghost use Rattle.serde_json.specs.Data.{string};
ghost use Rattle.serde_json.specs.Written.{comma_if, compact_text};
ghost use Rattle.json_writing.specs.steps.Members.{IsRow};
ghost use Rattle.json_writing.specs.steps.Places.{ArePlaced};

use crate::quoted::push_quoted;
use crate::value_text::push_comma_if;
use aidl_base::OutOfMemory;
use aidl_schema::{AidlType, Field};
use growing::GrowingText;
use std::alloc::Global;
use std::collections::BTreeMap;

// A member of a record's object: its key in quotes with the colon, and the comma before it where one stands there; and
// the place and the type of its field.
#[derive(Drop)]
pub struct Member {
    pub key: String,
    pub place: usize,
    pub ty: AidlType,
}

// The members of a record's object by its fields, in the order of their keys.
pub fn members_of(alloc: Global, fields: &[Field]) -> Result<Vec<Member>, OutOfMemory>
    ensures { IfOk result (λ row. IsRow fields.now row.items) }
{
    let places = places_by_name(alloc, fields)?;
    in_order(alloc, fields, &places)
}

// Where each field stands, by its name.
fn places_by_name<'a>(
    alloc: Global,
    fields: &'a [Field],
) -> Result<BTreeMap<&'a str, usize>, OutOfMemory>
    ensures { IfOk result (λ places. ArePlaced fields.now places.entries) }
{
    let mut places = BTreeMap::new(alloc);
    for i in (0..fields.len()).rev() {
        places.insert(fields[i].name.0.as_str(), i)?;
    }
    Ok(places)
}

fn in_order(
    alloc: Global,
    fields: &[Field],
    places: &BTreeMap<&str, usize>,
) -> Result<Vec<Member>, OutOfMemory>
    requires { ArePlaced fields.now places.now.entries }
    ensures { IfOk result (λ row. IsRow fields.now row.items) }
{
    let mut row = Vec::with_capacity(alloc, fields.len())?;
    let mut later = false;
    for (name, place) in places.iter() {
        row.push(Member {
            key: key_of(alloc, later, name)?,
            place: *place,
            ty: fields[*place].ty,
        })?;
        later = true;
    }
    Ok(row)
}

fn key_of(alloc: Global, later: bool, name: &str) -> Result<String, OutOfMemory>
    ensures { IfOk result (λ key. string_bytes key
        ≡ comma_if later ++ (compact_text (string name.now) ++ 58 ∷ [])) }
{
    let mut key = GrowingText::new(alloc);
    push_comma_if(later, &mut key);
    push_quoted(alloc, name, &mut key);
    key.push(':');
    key.into_string()
}
