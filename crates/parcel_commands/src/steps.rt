//! Steps that may end a command early: the bytes of a file of hexadecimal, and the types that TYPES names.
ghost use Rattle.std.specs.Prelude.{◌≡◌, ◌≤◌, true, length, IfOk};
ghost use Rattle.std.specs.List.{list_all};
ghost use Rattle.aidl_schema.specs.Types.{is_type};
ghost use Rattle.parcel_commands.specs.Refusals as step;
ghost use Rattle.tool_frame.specs.Results.{Finds, held};

use crate::hexadecimal_file::hexadecimal;
use crate::types::{Types, types_of};
use aidl_base::{Limit, LimitName};
use aidl_schema::{AidlType, Schema};
use std::alloc::Global;
use tool_frame::{Early, bytes_within, refusal, text_of};

/// The bytes that the text of a file stands for, at most 1,048,576; else the line of its limit, `not hexadecimal`, or the line of
/// `parcel-bytes`.
pub fn parcel_of(alloc: Global, file: Result<Vec<u8>, Limit>) -> Result<Vec<u8>, Early>
    ensures bytes { Finds (λ v. v.items) result (step.parcel_of (held file)) }
    ensures small { IfOk result (λ v. length v.items ≤ 1048576) }
{
    let text = text_of(alloc, file)?;
    match hexadecimal(alloc, text)? {
        Some(bytes) => bytes_within(alloc, LimitName::ParcelBytes, bytes),
        None => Err(refusal(alloc, "not hexadecimal", "")),
    }
}

/// The types that the entries of TYPES name.
pub fn known_types(alloc: Global, schema: &Schema, types: &str) -> Result<Vec<AidlType>, Early>
    ensures types { Finds (λ v. v.items) result (step.known_types schema.now.decls types.now) }
    ensures known { IfOk result (λ v. list_all (is_type schema.now.decls) v.items ≡ true) }
{
    match types_of(alloc, schema, types) {
        Ok(Types::Known(known)) => Ok(known),
        Ok(Types::Unknown(entry)) => Err(refusal(alloc, "bad type ", entry)),
        Err(_) => Err(Early::OutOfMemory),
    }
}
