//! The rows of a field: C10, one of a parcelable whose name differs, C11, one whose type differs, and C15, one of a union.
ghost use Rattle.std.specs.Option.{option_copied};
ghost use Rattle.std.specs.Prelude.{◌≡◌, ◌&&◌, ◌<◌, IfOk, IfSome, false, length, slice_get, take};
ghost use Rattle.aidl_values.specs.Data.{alt};
ghost use Rattle.aidl_schema.specs.Types.{type_of_field};
ghost use Rattle.aidl_values.specs.View.{view};
ghost use Rattle.compat_witness.specs.Reaching.{are_plain, plain_value};
ghost use Rattle.compat_witness.specs.Rows as rows;
ghost use Rattle.witness_search.specs.steps.Fields.{IsWithin, field_by_bytes, field_of, members_in};
ghost use Rattle.witness_search.specs.steps.Gives.{GivesRow};
ghost use Rattle.witness_search.specs.steps.Named.{field_named};

use crate::candidates::{Candidates, alone, one_request, two_requests};
use crate::fields::{Members, members_in, names_agree, types_agree, with_value};
use crate::pair::Pair;
use crate::plain::{are_plain, low_value};
use crate::spot::at_last_dot;
use aidl_base::{OutOfMemory, Text};
use aidl_schema::{Base, Field, Schema, find, law_valid, same_text, same_type};
use aidl_values::Value;
use std::alloc::Global;
use witness_calls::Version;

/// A field of a declaration of both versions: the numbers of that, and the field's position in old.
#[derive(Clone, Copy)]
pub struct FieldPlace {
    pub old: u32,
    pub new: u32,
    pub position: usize,
}

impl Pair<'_, '_> {
    /// C10: requests with z0, then z1, in that field and defaults elsewhere.
    #[tactic(auto, using(crate::proofs::FieldRows::none_c10, crate::proofs::FieldRows::some_c10))]
    pub fn asked_c10(&self, alloc: Global, place: &Text) -> Result<Option<Candidates>, OutOfMemory>
        ensures { IfOk result (GivesRow rows.row_C10 self.now place.now) }
    {
        let Some(at) = field_of(self, Members::Fields, place) else {
            return Ok(None);
        };
        let olds = members_in(&self.old, Members::Fields, at.old);
        let news = members_in(&self.new, Members::Fields, at.new);
        if !self.is_reached(at.old) || !is_met_c10(self, olds, news) {
            return Ok(None);
        }
        let low = with_value(alloc, self.old.schema(), false, at.position, olds)?;
        let high = with_value(alloc, self.old.schema(), true, at.position, olds)?;
        let part = two_requests(alloc, false, at.old, low, high)?;
        Ok(Some(alone(part)))
    }

    /// C11: requests with z0 in that field and defaults elsewhere, either way.
    #[tactic(auto, using(crate::proofs::FieldRows::none_c11, crate::proofs::FieldRows::some_c11))]
    pub fn asked_c11(&self, alloc: Global, place: &Text) -> Result<Option<Candidates>, OutOfMemory>
        ensures { IfOk result (GivesRow rows.row_C11 self.now place.now) }
    {
        let Some(at) = field_of(self, Members::Fields, place) else {
            return Ok(None);
        };
        let olds = members_in(&self.old, Members::Fields, at.old);
        let news = members_in(&self.new, Members::Fields, at.new);
        if !self.is_reached(at.old) || !is_met_c11(self, at.position, olds, news) {
            return Ok(None);
        }
        let forth = with_value(alloc, self.old.schema(), false, at.position, olds)?;
        let first = one_request(alloc, false, at.old, forth)?;
        let back = with_value(alloc, self.new.schema(), false, at.position, news)?;
        let second = one_request(alloc, true, at.new, back)?;
        Ok(Some(Candidates {
            first,
            second: Some(second),
        }))
    }

    /// C15: a request with that tag and z0.
    #[tactic(auto, using(crate::proofs::FieldRows::none_c15, crate::proofs::FieldRows::some_c15))]
    pub fn asked_c15(&self, alloc: Global, place: &Text) -> Result<Option<Candidates>, OutOfMemory>
        ensures { IfOk result (GivesRow rows.row_C15 self.now place.now) }
    {
        let Some(at) = field_of(self, Members::Alternatives, place) else {
            return Ok(None);
        };
        if !self.is_reached(at.old) || !is_met_c15(self, at) {
            return Ok(None);
        }
        let value = low_alternative(alloc, &self.old, at)?;
        let part = one_request(alloc, false, at.old, value)?;
        Ok(Some(alone(part)))
    }
}

// The field that a place names among these members of its declaration.
fn field_of(pair: &Pair<'_, '_>, members: Members, place: &Text) -> Option<FieldPlace>
    ensures is { result ≡ field_of members pair.now.old pair.now.new place.now }
    ensures within { IfSome result (IsWithin members pair.now.old) }
{
    field_by_bytes(pair, members, place.as_str())
}

// The same by the bytes of the place.
fn field_by_bytes(pair: &Pair<'_, '_>, members: Members, place: &str) -> Option<FieldPlace>
    ensures is { result ≡ field_by_bytes members pair.now.old pair.now.new place.now }
    ensures within { IfSome result (IsWithin members pair.now.old) }
{
    let (name, field) = at_last_dot(place)?;
    let old = find(pair.old.schema(), name)?;
    let new = find(pair.new.schema(), name)?;
    let position = position_in(&pair.old, members, old, field)?;
    Some(FieldPlace { old, new, position })
}

// The position of the field of a name among the members of a declaration.
#[tactic(auto, using(crate::proofs::RecordParts::no_field, crate::proofs::RecordParts::some_field))]
fn position_in(version: &Version<'_>, members: Members, number: u32, name: &str) -> Option<usize>
    ensures { result ≡ field_named (members_in members version.now number) name.now }
{
    if members_in(version, members, number).len() == 0 {
        return None;
    }
    version.field_named(number, name)
}

// All fields are plain in both, and types agree at each position below both counts.
fn is_met_c10(pair: &Pair<'_, '_>, olds: &[Field], news: &[Field]) -> bool
    ensures { result ≡ ((are_plain olds.now && are_plain news.now)
        && rows.types_agree pair.now.old olds.now pair.now.new news.now) }
{
    (are_plain(olds) && are_plain(news))
        && types_agree(pair.old.schema(), olds, pair.new.schema(), news)
}

// All fields are plain in both, have the same names, and but for the last the same types.
#[tactic(auto, using(crate::proofs::RecordParts::not_last, crate::proofs::RecordParts::at_last))]
fn is_met_c11(pair: &Pair<'_, '_>, position: usize, olds: &[Field], news: &[Field]) -> bool
    requires { position < length olds.now }
    ensures { result ≡ ((are_plain olds.now && are_plain news.now)
        && (rows.names_agree olds.now news.now
        && (rows.is_last position olds.now
        && rows.types_agree pair.now.old (take position olds.now) pair.now.new news.now))) }
{
    if position + 1 != olds.len() {
        return false;
    }
    (are_plain(olds) && are_plain(news))
        && (names_agree(olds, news)
            && types_agree(
                pair.old.schema(),
                &olds[..position],
                pair.new.schema(),
                news,
            ))
}

// All alternatives are plain in both, and names or types differ at that position.
fn is_met_c15(pair: &Pair<'_, '_>, at: FieldPlace) -> bool
    ensures { result ≡ ((are_plain (rows.alternatives_in pair.now.old at.old)
        && are_plain (rows.alternatives_in pair.now.new at.new))
        && rows.differ_at pair.now.old pair.now.new
        (slice_get (rows.alternatives_in pair.now.old at.old) at.position)
        (slice_get (rows.alternatives_in pair.now.new at.new) at.position)) }
{
    let before = members_in(&pair.old, Members::Alternatives, at.old).get(at.position);
    let after = members_in(&pair.new, Members::Alternatives, at.new).get(at.position);
    pair.are_plain(at.old, at.new) && differ_at(pair, before, after)
}

// z0 in the alternative at a position.
fn low_alternative(
    alloc: Global,
    version: &Version<'_>,
    at: FieldPlace,
) -> Result<Value, OutOfMemory>
    requires { at.position < length (rows.alternatives_in version.now at.old) }
    ensures { IfOk result (λ value. view value
        ≡ rows.low_alternative at.position (rows.alternatives_in version.now at.old)) }
{
    let tag = small_position(version.schema(), at.old, at.position);
    let field = members_in(version, Members::Alternatives, at.old).get(at.position);
    low_in(alloc, tag, field)
}

// z0 in the alternative of a tag.
fn low_in(alloc: Global, tag: u32, field: Option<&Field>) -> Result<Value, OutOfMemory>
    ensures { IfOk result (λ value. view value
        ≡ alt tag (plain_value false (type_of_field (option_copied field.entry)).base)) }
{
    let base = match field {
        Some(field) => field.ty.base,
        None => Base::Boolean,
    };
    let inner = Box::new(alloc, low_value(base))?;
    Ok(Value::Alt(tag, inner))
}

// Whether names or types differ, where both are there.
fn differ_at(pair: &Pair<'_, '_>, before: Option<&Field>, after: Option<&Field>) -> bool
    ensures { result ≡ rows.differ_at pair.now.old pair.now.new
        (option_copied before.entry) (option_copied after.entry) }
{
    match (before, after) {
        (Some(before), Some(after)) => {
            !(same_text(&before.name.0, &after.name.0)
                && same_type(pair.old.schema(), before.ty, pair.new.schema(), after.ty))
        }
        _ => false,
    }
}

// A position of an alternative is small.
fn small_position(schema: &Schema, number: u32, position: usize) -> u32
    requires { position < length (rows.alternatives_in schema.now.decls number) }
    ensures { result ≡ position }
{
    law_valid(schema);
    position as u32
}
