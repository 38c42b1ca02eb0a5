//! The rows of a declaration: C2, one whose kind differs, and C16, an enum whose backing differs.
ghost use Rattle.std.specs.Prelude.{◌≡◌, ◌==◌, IfOk};
ghost use Rattle.compat_witness.specs.Rows as rows;
ghost use Rattle.witness_search.specs.steps.Gives.{GivesRow};

use crate::candidates::{Candidates, alone, one_request, two_requests};
use crate::pair::Pair;
use aidl_base::{OutOfMemory, Text};
use aidl_schema::Kind;
use aidl_values::Value;
use std::alloc::Global;
use witness_calls::{Version, declared};

impl Pair<'_, '_> {
    /// C2: a request with 0 from the version that has the enum.
    pub fn asked_c2(&self, alloc: Global, place: &Text) -> Result<Option<Candidates>, OutOfMemory>
        ensures { IfOk result (GivesRow rows.row_C2 self.now place.now) }
    {
        let Some(before) = declared(self.old.schema(), place) else {
            return Ok(None);
        };
        let Some(after) = declared(self.new.schema(), place) else {
            return Ok(None);
        };
        if !self.is_reached(before) {
            return Ok(None);
        }
        if is_enum(&self.old, before) && is_record(&self.new, after) {
            let part = one_request(alloc, false, before, Value::Number(0))?;
            return Ok(Some(alone(part)));
        }
        if is_enum(&self.new, after) && is_record(&self.old, before) {
            let part = one_request(alloc, true, after, Value::Number(0))?;
            return Ok(Some(alone(part)));
        }
        Ok(None)
    }

    /// C16: requests with 0, then 200, either way.
    pub fn asked_c16(&self, alloc: Global, place: &Text) -> Result<Option<Candidates>, OutOfMemory>
        ensures { IfOk result (GivesRow rows.row_C16 self.now place.now) }
    {
        let Some(before) = declared(self.old.schema(), place) else {
            return Ok(None);
        };
        let Some(after) = declared(self.new.schema(), place) else {
            return Ok(None);
        };
        if !self.is_reached(before) {
            return Ok(None);
        }
        let first = two_requests(alloc, false, before, Value::Number(0), Value::Number(200))?;
        let second = two_requests(alloc, true, after, Value::Number(0), Value::Number(200))?;
        Ok(Some(Candidates {
            first,
            second: Some(second),
        }))
    }
}

// Whether the declaration of a number is an enum.
fn is_enum(version: &Version<'_>, number: u32) -> bool
    ensures { result ≡ (rows.kind_at version.now number == 3) }
{
    match version.schema().decls.as_slice().get(number as usize) {
        Some(decl) => matches!(decl.kind, Kind::Enum(_, _)),
        None => false,
    }
}

// Whether it is a parcelable or a union.
fn is_record(version: &Version<'_>, number: u32) -> bool
    ensures { result ≡ rows.is_record_kind (rows.kind_at version.now number) }
{
    match version.schema().decls.as_slice().get(number as usize) {
        Some(decl) => matches!(decl.kind, Kind::Parcelable(_) | Kind::Union(_)),
        None => false,
    }
}
