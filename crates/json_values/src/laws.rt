//! A law of values and JSON: what is written reads back.
ghost use Rattle.std.specs.Prelude.{◌≡◌, Ok};
ghost use Rattle.aidl_values.specs.Fits.{Fits};
ghost use Rattle.aidl_values.specs.View.{view};
ghost use Rattle.json_values.specs.FromJson.{from_json_of};
ghost use Rattle.json_writing.specs.Json.{json_of};

use aidl_schema::{AidlType, Schema, law_valid};
use aidl_values::Value;

/// What a value that fits is written as reads as the value.
pub fn law_json_reads_back(schema: &Schema, ty: &AidlType, value: &Value)
    requires { Fits schema.now.decls ty.now (view value.now) }
    ensures { from_json_of schema.now.decls 64 ty.now
        (json_of schema.now.decls ty.now (view value.now)) ≡ Ok (view value.now) }
{
    law_valid(schema);
}
