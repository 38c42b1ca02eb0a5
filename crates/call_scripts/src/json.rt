//! The JSON value of a line.
ghost use Rattle.std.specs.Prelude.{[]};
ghost use Rattle.json_values.specs.JsonText.{parsed_json};
ghost use Rattle.call_scripts.specs.Gives.{Gives};
ghost use Rattle.call_scripts.specs.declared.refused.RefusedName.TheVariants.{NotJson};
ghost use Rattle.call_scripts.specs.Script.{or_refuse};
ghost use Rattle.serde_json.specs.View.{view as json_view};

use crate::refused::{Place, RefusedName, refusal};
use json_values::{Fault, parse_json};
use serde_json::Value as Json;
use std::alloc::Global;

// The JSON value of a line.
pub fn json_in(alloc: Global, line: &[u8]) -> Result<Json, Fault<RefusedName>>
    ensures { Gives json_view result (or_refuse NotJson [] (parsed_json line.now)) }
{
    match parse_json(alloc, line) {
        Ok(Some(json)) => Ok(json),
        Ok(None) => Err(refusal(alloc, RefusedName::NotJson, Place::Line)),
        Err(_) => Err(Fault::OutOfMemory),
    }
}
