//! The witness of a broken rule: the first call that shows it, or the reason why there is none.
ghost use Rattle.std.specs.Prelude.{IfOk, List, Option};
ghost use Rattle.aidl_schema.specs.Broken.{broken};
ghost use Rattle.aidl_schema.specs.Unbroken.{Has};
ghost use Rattle.compat_judge.specs.Seen.{seen};
ghost use Rattle.compat_witness.specs.Candidates.{Candidate};
ghost use Rattle.witness_search.specs.IsWitness.{IsAllowed, IsOfRow, IsWitness, those_of};
ghost use Rattle.witness_search.specs.Seen.{ShowsAny, shown_seen};
ghost use Rattle.witness_search.specs.steps.Gives.{GivesIs};

use crate::candidates::Candidates;
use crate::first::first_shown;
use crate::pair::Pair;
use crate::shown::{NoCall, Shown};
use aidl_base::OutOfMemory;
use compat_judge::Broken;
use compat_witness::law_shown;
use std::alloc::Global;

/// The witness of an entry of the judge's list: of the calls that the row of its rule gives at its place, the first that counts and whose
/// two sides differ. Where there is none it is the reason: `OutsideWire` of a rule without a row, and `NoCandidate` of the others (own).
/// `OutOfMemory` is the one refusal.
pub fn witness_of(alloc: Global, pair: &Pair<'_, '_>, entry: &Broken) -> Result<Shown, OutOfMemory>
    requires among { Has (broken pair.now.old pair.now.new) (seen entry.now) }
    ensures exact { IfOk result (λ shown.
        IsWitness pair.now.old pair.now.new (seen entry.now) (shown_seen shown)) }
    // Of a rule with a row a reason comes only where the row's condition isn't met, or where a call whose values fit is too long.
    ensures allowed { IfOk result (λ shown.
        IsAllowed pair.now.old pair.now.new (seen entry.now) (shown_seen shown)) }
    // Beside the call stand its bytes, what is read of them, and what its values are projected to.
    ensures shows { IfOk result (λ shown. ShowsAny pair.now.old pair.now.new shown) }
{
    law_shown(
        pair.old.schema(),
        pair.new.schema(),
        entry.rule,
        &entry.place,
    );
    search(alloc, pair, entry)
}

// The same by the entry's rule, each with its row of the table.
fn search(alloc: Global, pair: &Pair<'_, '_>, entry: &Broken) -> Result<Shown, OutOfMemory>
    ensures exact { IfOk result (λ shown.
        IsWitness pair.now.old pair.now.new (seen entry.now) (shown_seen shown)) }
    ensures shows { IfOk result (λ shown. ShowsAny pair.now.old pair.now.new shown) }
{
    let place = &entry.place;
    match entry.rule {
        2 => among(alloc, pair, pair.asked_c2(alloc, place)),
        3 => among(alloc, pair, Ok(pair.asked_c3(alloc, place))),
        4 => among(alloc, pair, Ok(pair.asked_c4(alloc, place))),
        5 => among(alloc, pair, Ok(pair.asked_c5(alloc, place))),
        6 => among(alloc, pair, pair.asked_c6(alloc, place)),
        7 => among(alloc, pair, pair.asked_c7(alloc, place)),
        8 => among(alloc, pair, Ok(pair.asked_c8(place))),
        10 => among(alloc, pair, pair.asked_c10(alloc, place)),
        11 => among(alloc, pair, pair.asked_c11(alloc, place)),
        15 => among(alloc, pair, pair.asked_c15(alloc, place)),
        16 => among(alloc, pair, pair.asked_c16(alloc, place)),
        _ => Ok(Shown::Reason(NoCall::OutsideWire)),
    }
}

// The first candidate that is shown of those that a row gave, or that none is.
#[tactic(auto, using(crate::proofs::FirstShown::none_met, crate::proofs::FirstShown::found_met, crate::proofs::FirstShown::none_found, crate::proofs::FirstShown::first_shows))]
fn among(
    alloc: Global,
    pair: &Pair<'_, '_>,
    asked: Result<Option<Candidates>, OutOfMemory>,
) -> Result<Shown, OutOfMemory>
    ensures exact { (cs : Option (List Candidate)) → IfOk asked (GivesIs pair.now cs)
        → IfOk result (λ shown. IsOfRow pair.now.old pair.now.new (those_of cs) (shown_seen shown)) }
    ensures shows { IfOk result (λ shown. ShowsAny pair.now.old pair.now.new shown) }
{
    let Some(candidates) = asked? else {
        return Ok(Shown::Reason(NoCall::NoCandidate));
    };
    match first_shown(alloc, pair, candidates)? {
        Some(witness) => Ok(Shown::Found(witness)),
        None => Ok(Shown::Reason(NoCall::NoCandidate)),
    }
}
