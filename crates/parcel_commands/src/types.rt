//! The types of a schema that the entries of TYPES name, or the first entry that names none.
ghost use Rattle.std.specs.Prelude.{◌≡◌, true, IfOk, IfSome};
ghost use Rattle.aidl_schema.specs.Types.{is_type};
ghost use Rattle.tool_words.specs.Entries.{entries_of};
ghost use Rattle.parcel_commands.specs.steps.Types.{AreKnown, types_seen};
ghost use Rattle.parcel_commands.specs.Types.{type_of, types_of};

use crate::base::{base_of, shape_of};
use aidl_base::OutOfMemory;
use aidl_schema::{AidlType, Schema, is_type};
use std::alloc::Global;
use tool_words::{entry_of, first_entry};

/// What the entries of TYPES name.
#[derive(Drop)]
pub enum Types<'a> {
    /// one type for each entry
    Known(Vec<AidlType>),
    /// the first entry that names no type
    Unknown(&'a str),
}

/// The types that the entries of TYPES name, or the first entry that names none: whose name is no base, or whose type
/// E14 or E16 refuses.
pub fn types_of<'a>(
    alloc: Global,
    schema: &Schema,
    types: &'a str,
) -> Result<Types<'a>, OutOfMemory>
    ensures types { IfOk result (λ known. types_seen known
        ≡ types_of schema.now.decls (entries_of types.now)) }
    ensures known { IfOk result (λ known. AreKnown schema.now.decls known) }
{
    let mut known = Vec::new(alloc);
    let mut left = Some(types);
    'entries: while let Some(text) = left {
        let (entry, others) = first_entry(text);
        match type_of(schema, entry.as_bytes()) {
            None => return Ok(Types::Unknown(entry)),
            Some(ty) => known.push(ty)?,
        }
        left = others;
    }
    Ok(Types::Known(known))
}

// The type that an entry names.
fn type_of(schema: &Schema, text: &[u8]) -> Option<AidlType>
    ensures ty { result ≡ type_of schema.now.decls text.now }
    ensures known { IfSome result (λ ty. is_type schema.now.decls ty ≡ true) }
{
    let entry = entry_of(text);
    let ty = AidlType {
        base: base_of(schema, entry.name)?,
        shape: shape_of(entry.form),
        nullable: entry.nullable,
        heap: false,
        utf8: false,
    };
    if is_type(schema, ty) { Some(ty) } else { None }
}
