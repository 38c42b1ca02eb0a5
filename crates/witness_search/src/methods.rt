//! The rows of a method: C3, one that new lacks, C4, one whose id differs, C5, one whose result differs, C6, one whose arguments differ
//! in number or type, and C8, one that is oneway in one version alone.
ghost use Rattle.std.specs.Prelude.{◌≡◌, List, ℕ, IfOk};
ghost use Rattle.std.specs.List.{list_all};
ghost use Rattle.std.specs.Str.{encode_utf8_all};
ghost use Rattle.aidl_values.specs.Data.{none};
ghost use Rattle.aidl_values.specs.View.{views};
ghost use Rattle.wire_model.specs.Calls.{answer_of, returned};
ghost use Rattle.compat_witness.specs.Rows as rows;
ghost use Rattle.compat_witness.specs.RowsByRule.{row_C6_both};
ghost use Rattle.witness_search.specs.steps.Gives.{GivesRow};
ghost use Rattle.witness_search.specs.steps.Seen.{spot_seen};

use crate::candidates::{Candidates, alone, call_by, one_value};
use crate::pair::Pair;
use crate::plain::{is_plain_in, is_plain_result, low_value};
use crate::spot::{Spot, are_empty, at_slash, both_only, is_empty, spot_like, spot_of};
use aidl_base::{OutOfMemory, Row, Text};
use aidl_schema::{AidlType, Arg};
use aidl_values::{Answer, Value};
use std::alloc::Global;
use witness_calls::Values;

impl Pair<'_, '_> {
    /// C3: a request from the old version; None where the method has arguments or new has no method of its id.
    pub fn asked_c3(&self, alloc: Global, place: &Text) -> Option<Candidates>
        ensures { GivesRow rows.row_C3 self.now place.now result }
    {
        let spot = spot_of(&self.old, place.as_str())?;
        let interface = self.new.declared_like(&self.old, spot.interface)?;
        if !is_empty(spot.method.args.as_slice()) {
            return None;
        }
        self.new.method_of_id(interface, spot.method.id)?;
        let nothing = Values::Arguments(Row::new(alloc));
        Some(alone(call_by(false, &spot, nothing)))
    }

    /// C4: a request from the old version.
    pub fn asked_c4(&self, alloc: Global, place: &Text) -> Option<Candidates>
        ensures { GivesRow rows.row_C4 self.now place.now result }
    {
        let before = spot_of(&self.old, place.as_str())?;
        let after = spot_like(self, &before)?;
        if !are_empty(&before, &after) {
            return None;
        }
        let nothing = Values::Arguments(Row::new(alloc));
        Some(alone(call_by(false, &before, nothing)))
    }

    /// C5: a reply with z0, or with nothing for void, either way.
    pub fn asked_c5(&self, alloc: Global, place: &Text) -> Option<Candidates>
        ensures { GivesRow rows.row_C5 self.now place.now result }
    {
        let before = spot_of(&self.old, place.as_str())?;
        let after = spot_like(self, &before)?;
        if !is_met_c5(&before, &after) {
            return None;
        }
        let forth = Values::Answer(Some(low_answer(alloc, after.method.result)));
        let back = Values::Answer(Some(low_answer(alloc, before.method.result)));
        Some(Candidates {
            first: call_by(false, &before, forth),
            second: Some(call_by(true, &after, back)),
        })
    }

    /// C6, at a method or at an argument.
    pub fn asked_c6(&self, alloc: Global, place: &Text) -> Result<Option<Candidates>, OutOfMemory>
        ensures { IfOk result (GivesRow row_C6_both self.now place.now) }
    {
        let text = place.as_str();
        match at_slash(text) {
            Some((method, _)) => self.c6_of_argument(alloc, method),
            None => self.c6_of_method(alloc, text),
        }
    }

    // C6 at a method: a request from the old version with z0 for each argument.
    fn c6_of_method(&self, alloc: Global, place: &str) -> Result<Option<Candidates>, OutOfMemory>
        ensures { (p : List ℕ) → place.now ≡ encode_utf8_all p
            → IfOk result (GivesRow rows.row_C6 self.now p) }
    {
        let Some(before) = spot_of(&self.old, place) else {
            return Ok(None);
        };
        let Some(after) = spot_like(self, &before) else {
            return Ok(None);
        };
        let args = before.method.args.as_slice();
        if !is_met_c6(args, after.method.args.as_slice()) {
            return Ok(None);
        }
        let sent = Values::Arguments(low_arguments(alloc, args)?);
        Ok(Some(alone(call_by(false, &before, sent))))
    }

    // C6 at an argument: a request from the old version with z0.
    fn c6_of_argument(&self, alloc: Global, place: &str) -> Result<Option<Candidates>, OutOfMemory>
        ensures { (p : List ℕ) → place.now ≡ encode_utf8_all p
            → IfOk result (GivesRow rows.row_C6_at self.now p) }
    {
        let Some(before) = spot_of(&self.old, place) else {
            return Ok(None);
        };
        let Some(after) = spot_like(self, &before) else {
            return Ok(None);
        };
        match both_only(&before, &after) {
            Some((a, b)) if is_plain_in(a) && is_plain_in(b) => {
                let sent = Values::Arguments(one_value(alloc, low_value(a.ty.base))?);
                Ok(Some(alone(call_by(false, &before, sent))))
            }
            _ => Ok(None),
        }
    }

    /// C8: a reply to the two-way client.
    pub fn asked_c8(&self, place: &Text) -> Option<Candidates>
        ensures { GivesRow rows.row_C8 self.now place.now result }
    {
        let before = spot_of(&self.old, place.as_str())?;
        let after = spot_like(self, &before)?;
        if !are_empty(&before, &after) {
            return None;
        }
        if before.method.oneway {
            return Some(alone(call_by(true, &after, Values::Answer(None))));
        }
        Some(alone(call_by(false, &before, Values::Answer(None))))
    }
}

// No arguments and two-way in both; each result is plain or void.
fn is_met_c5(before: &Spot<'_>, after: &Spot<'_>) -> bool
    ensures { result ≡ rows.is_met_C5 (spot_seen before.now) (spot_seen after.now) }
{
    are_empty(before, after)
        && !(before.method.oneway || after.method.oneway)
        && is_plain_result(before.method.result)
        && is_plain_result(after.method.result)
}

// The answer with z0, or with nothing.
fn low_answer(alloc: Global, ty: Option<AidlType>) -> Answer
    ensures { answer_of result ≡ returned (rows.low_result ty) none }
{
    let outs = Row::new(alloc);
    match ty {
        Some(ty) => Answer::Returned {
            result: Some(low_value(ty.base)),
            outs,
        },
        None => Answer::Returned { result: None, outs },
    }
}

// One has no arguments; the other has only plain `in` ones.
fn is_met_c6(olds: &[Arg], news: &[Arg]) -> bool
    ensures { result ≡ rows.is_met_C6 olds.now news.now }
{
    (is_empty(olds) && are_plain_in(news)) || (is_empty(news) && are_plain_in(olds))
}

fn are_plain_in(args: &[Arg]) -> bool
    ensures { result ≡ list_all rows.is_plain_in args.now }
{
    args.iter().all(|arg| is_plain_in(arg))
}

// z0 for each argument.
fn low_arguments(alloc: Global, args: &[Arg]) -> Result<Row<Value>, OutOfMemory>
    ensures { IfOk result (λ values. views values ≡ rows.low_arguments args.now) }
{
    let mut values = Vec::with_capacity(alloc, args.len())?;
    for arg in args {
        values.push(low_value(arg.ty.base))?;
    }
    Ok(Row::from_vec(values))
}
