//! The fields of a declaration, and records of values for them.
ghost use Rattle.std.specs.Prelude.{◌≡◌, ◌<◌, length, IfOk, if◌then◌else◌};
ghost use Rattle.aidl_values.specs.Sound.{initial_in};
ghost use Rattle.aidl_values.specs.Data.{rec};
ghost use Rattle.aidl_values.specs.View.{view, views};
ghost use Rattle.compat_witness.specs.Reaching as reaching;
ghost use Rattle.compat_witness.specs.Rows as rows;
ghost use Rattle.witness_search.specs.ReachTables.{plain_unions};
ghost use Rattle.witness_search.specs.steps.Fields.{members_in, members_of};
ghost use Rattle.witness_search.specs.steps.Records.{part};

use crate::plain::{are_plain, plain_value};
use aidl_base::{OutOfMemory, Row};
use aidl_schema::{Decl, Field, Kind, Schema, same_text, same_type};
use aidl_values::{Fields, Value, initial_of};
use std::alloc::Global;
use witness_calls::Version;

/// The members of a declaration among which a row looks: the fields of a parcelable, or those of a union.
#[derive(Clone, Copy)]
pub enum Members {
    Fields,
    Alternatives,
}

/// The members of the declaration of a number; none of another kind.
pub fn members_in<'a>(version: &Version<'a>, members: Members, number: u32) -> &'a [Field]
    ensures { result.now ≡ members_in members version.now number }
{
    match version.schema().decls.as_slice().get(number as usize) {
        Some(decl) => members_of(members, &decl.kind),
        None => &[],
    }
}

// The members of a declaration of a kind.
fn members_of(members: Members, kind: &Kind) -> &[Field]
    ensures { result.now ≡ members_of members kind.now }
{
    match kind {
        Kind::Parcelable(fields) if matches!(members, Members::Fields) => fields.as_slice(),
        Kind::Union(fields) if matches!(members, Members::Alternatives) => fields.as_slice(),
        _ => &[],
    }
}

/// For each of some declarations whether all alternatives are plain, if it is a union.
pub fn plain_unions(alloc: Global, decls: &[Decl]) -> Result<Vec<bool>, OutOfMemory>
    ensures { IfOk result (λ plain. plain.items ≡ plain_unions decls.now) }
{
    let mut plain = Vec::with_capacity(alloc, decls.len())?;
    for decl in decls {
        plain.push(are_plain(members_of(Members::Alternatives, &decl.kind)))?;
    }
    Ok(plain)
}

/// Whether the types at each position below both counts are the same.
pub fn types_agree(old: &Schema, olds: &[Field], new: &Schema, news: &[Field]) -> bool
    ensures { result ≡ rows.types_agree old.now.decls olds.now new.now.decls news.now }
{
    for i in 0..olds.len().min(news.len()) {
        if !same_type(old, olds[i].ty, new, news[i].ty) {
            return false;
        }
    }
    true
}

/// Whether there are as many fields, with the same names at each position.
#[tactic(auto, using(crate::proofs::RecordParts::uneven))]
pub fn names_agree(olds: &[Field], news: &[Field]) -> bool
    ensures { result ≡ rows.names_agree olds.now news.now }
{
    if olds.len() != news.len() {
        return false;
    }
    for i in 0..olds.len() {
        if !same_text(&olds[i].name.0, &news[i].name.0) {
            return false;
        }
    }
    true
}

/// A record: z0 at a position, or z1 where `high`, and defaults elsewhere.
#[tactic(auto, using(crate::proofs::RecordParts::one_more))]
pub fn with_value(
    alloc: Global,
    schema: &Schema,
    high: bool,
    position: usize,
    fields: &[Field],
) -> Result<Value, OutOfMemory>
    ensures { IfOk result (λ value. view value
        ≡ rec (reaching.with_value schema.now.decls high position fields.now)) }
{
    let mut values = Vec::with_capacity(alloc, fields.len())?;
    for i in 0..fields.len() {
        let value = value_at(alloc, schema, high, i == position, &fields[i])?;
        values.push(value)?;
    }
    Ok(Value::Rec(Fields::Whole(Row::from_vec(values))))
}

// z0 or z1 of a field where it is meant, and its default elsewhere.
fn value_at(
    alloc: Global,
    schema: &Schema,
    high: bool,
    is_meant: bool,
    field: &Field,
) -> Result<Value, OutOfMemory>
    ensures { IfOk result (λ value. view value ≡ part schema.now.decls high is_meant field.now) }
{
    if is_meant {
        plain_value(alloc, high, field.ty.base)
    } else {
        initial_of(alloc, schema, field)
    }
}
