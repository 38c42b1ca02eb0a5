//! The JSON value of a text.
ghost use Rattle.std.specs.Prelude.{◌≡◌, IfOk};
ghost use Rattle.std.specs.Option.{option_map};
ghost use Rattle.serde_json.specs.View.{view as json_view};
ghost use Rattle.json_values.specs.JsonText.{parsed_json};

use aidl_base::OutOfMemory;
use serde_json::Value as Json;
use std::alloc::Global;

/// The JSON value of a text. None where the bytes aren't UTF-8, or where `serde_json` reads no value of them.
pub fn parse_json(alloc: Global, bytes: &[u8]) -> Result<Option<Json>, OutOfMemory>
    ensures { IfOk result (λ json. option_map json_view json ≡ parsed_json bytes.now) }
{
    let Ok(text) = str::from_utf8(bytes) else {
        return Ok(None);
    };
    match Json::from_str(alloc, text) {
        Ok(json) => Ok(Some(json)),
        Err(error) if error.is_memory() => Err(OutOfMemory),
        Err(_) => Ok(None),
    }
}
