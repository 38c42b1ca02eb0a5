//! The values that a file of JSON stands for, one for each of some types.
ghost use Rattle.std.specs.Prelude.{◌≡◌, Ok, IfOk, length, map};
ghost use Rattle.serde_json.specs.View.{view as json_view, items_view};
ghost use Rattle.aidl_values.specs.View.{view};
ghost use Rattle.parcel_commands.specs.JsonFile.{AreTyped, values_from, values_of};
ghost use Rattle.parcel_commands.specs.steps.Refusing.{RefusesAs};

use aidl_schema::{AidlType, Schema};
use aidl_values::Value;
use json_values::{JsonFault, from_json};
use serde_json::Value as Json;
use std::alloc::{AllocError, AllocFailed, Global};

/// Why a JSON value gives no values of some types.
#[derive(Drop)]
pub enum Unread {
    /// It is no array of as many elements as there are types.
    Shape,
    /// The element at this 0-based place is refused.
    Value(usize, JsonFault),
    OutOfMemory,
}

impl From<AllocError> for Unread {
    ghost use Rattle.parcel_commands.specs.declared.json_file.Unread.TheVariants.{OutOfMemory as Lost};

    ghost from_gives = { λ _ unread. unread ≡ Lost };

    fn from(_fault: AllocError) -> Unread {
        Unread::OutOfMemory
    }
}

impl<T: Drop> From<AllocFailed<T>> for Unread {
    ghost use Rattle.parcel_commands.specs.declared.json_file.Unread.TheVariants.{OutOfMemory as Lost};

    ghost from_gives = { λ _ unread. unread ≡ Lost };

    fn from(_fault: AllocFailed<T>) -> Unread {
        Unread::OutOfMemory
    }
}

/// One value for each type, of the array's elements in order, or the first refusal: the JSON value is no array of as
/// many elements as there are types, or an element is refused.
pub fn values_of(
    alloc: Global,
    schema: &Schema,
    types: &[AidlType],
    json: &Json,
) -> Result<Vec<Value>, Unread>
    ensures ok { IfOk result (λ vs. values_of schema.now.decls types.now (json_view json.now)
        ≡ Ok (map view vs.items)) }
    ensures typed { IfOk result (λ vs. AreTyped schema.now.decls types.now (map view vs.items)) }
    ensures refused { RefusesAs result (values_of schema.now.decls types.now (json_view json.now)) }
{
    let Json::Array(items) = json else {
        return Err(Unread::Shape);
    };
    if types.len() != items.len() {
        return Err(Unread::Shape);
    }
    values_from(alloc, schema, types, items.as_slice())
}

// One value for each type, of as many elements.
fn values_from(
    alloc: Global,
    schema: &Schema,
    types: &[AidlType],
    items: &[Json],
) -> Result<Vec<Value>, Unread>
    requires { length types.now ≡ length items.now }
    ensures ok { IfOk result (λ vs. values_from schema.now.decls 0 types.now (items_view items.now)
        ≡ Ok (map view vs.items)) }
    ensures typed { IfOk result (λ vs. AreTyped schema.now.decls types.now (map view vs.items)) }
    ensures refused { RefusesAs result
        (values_from schema.now.decls 0 types.now (items_view items.now)) }
{
    let mut values = Vec::with_capacity(alloc, types.len())?;
    for i in 0..types.len() {
        match from_json(alloc, schema, &types[i], &items[i]) {
            Ok(value) => values.push(value)?,
            Err(fault) => return Err(Unread::Value(i, fault)),
        }
    }
    Ok(values)
}
