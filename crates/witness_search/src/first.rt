//! The first candidate that is shown.
ghost use Rattle.std.specs.Prelude.{◌∷◌, [], IfOk};
ghost use Rattle.witness_calls.specs.Seen.{call_seen};
ghost use Rattle.witness_search.specs.Asked.{candidates_seen, group_seen, part_seen};
ghost use Rattle.witness_search.specs.steps.First.{IsFirst};
ghost use Rattle.witness_search.specs.steps.Requests.{request_of, requests_of};
ghost use Rattle.witness_search.specs.steps.Trials.{IsFirstTrial};

use crate::candidates::{Candidates, Group, Part, Reach, one_value};
use crate::pair::Pair;
use crate::shown::Witness;
use aidl_base::OutOfMemory;
use aidl_values::Value;
use compat_witness::law_alike;
use std::alloc::Global;
use witness_calls::{Call, Tried, Values, try_call};

/// The first of these candidates that is shown, None where none is.
#[tactic(auto, using(crate::proofs::Firsts::part_found, crate::proofs::Firsts::part_later, crate::proofs::Firsts::part_alone))]
pub fn first_shown(
    alloc: Global,
    pair: &Pair<'_, '_>,
    candidates: Candidates,
) -> Result<Option<Witness>, OutOfMemory>
    ensures { IfOk result (λ found. IsFirst pair.now.old pair.now.new
        (candidates_seen pair.now.old pair.now.new candidates) found) }
{
    let Candidates { first, second } = candidates;
    match first_of(alloc, pair, first)? {
        Some(found) => Ok(Some(found)),
        None => match second {
            Some(part) => first_of(alloc, pair, part),
            None => Ok(None),
        },
    }
}

// The first of a part that is shown.
fn first_of(alloc: Global, pair: &Pair<'_, '_>, part: Part) -> Result<Option<Witness>, OutOfMemory>
    ensures { IfOk result (λ found. IsFirst pair.now.old pair.now.new
        (part_seen pair.now.old pair.now.new part) found) }
{
    match part {
        Part::Call(call) => {
            let Trial { found, short: _ } = try_one(alloc, pair, call)?;
            Ok(found)
        }
        Part::Requests(group) => first_of_group(alloc, pair, &group),
    }
}

/// What trials of calls came to: the first that is shown, and where none is, whether it is known that none is too long.
#[derive(Drop)]
pub struct Trial {
    pub found: Option<Witness>,
    pub short: bool,
}

// The trial of one call.
#[tactic(auto, using(crate::proofs::Trials::one_found, crate::proofs::Trials::one_tried))]
fn try_one(alloc: Global, pair: &Pair<'_, '_>, call: Call) -> Result<Trial, OutOfMemory>
    ensures { IfOk result (λ trial. IsFirstTrial pair.now.old pair.now.new (call_seen call ∷ []) trial) }
{
    let Tried { showing, short } = try_call(alloc, &pair.old, &pair.new, &call)?;
    match showing {
        Some(showing) => Ok(Trial {
            found: Some(Witness { call, showing }),
            short: false,
        }),
        None => Ok(Trial { found: None, short }),
    }
}

// The first request of a group that is shown. The methods that reach its declaration show all or none by one value; so after one of
// whose requests none is too long no other one is tried.
fn first_of_group(
    alloc: Global,
    pair: &Pair<'_, '_>,
    group: &Group,
) -> Result<Option<Witness>, OutOfMemory>
    ensures { IfOk result (λ found.
        IsFirst pair.now.old pair.now.new (group_seen pair.now.old pair.now.new group.now) found) }
{
    let before = pair.old.schema();
    let after = pair.new.schema();
    law_alike(before, after);
    law_alike(after, before);
    let methods = pair.reaching(group.back, group.number);
    let values = group.values.as_slice();
    for reach in methods {
        let Trial { found, short } = try_method(alloc, pair, group.back, reach, values)?;
        if let Some(found) = found {
            return Ok(Some(found));
        }
        if short {
            return Ok(None);
        }
    }
    Ok(None)
}

// The trial of a method's requests.
fn try_method(
    alloc: Global,
    pair: &Pair<'_, '_>,
    back: bool,
    reach: &Reach,
    values: &[Value],
) -> Result<Trial, OutOfMemory>
    ensures { IfOk result (λ trial.
        IsFirstTrial pair.now.old pair.now.new (requests_of back values.now reach.now) trial) }
{
    let mut all_short = true;
    for value in values {
        let Trial { found, short } = try_request(alloc, pair, back, reach, value)?;
        if let Some(found) = found {
            return Ok(Trial {
                found: Some(found),
                short: false,
            });
        }
        all_short &= short;
    }
    Ok(Trial {
        found: None,
        short: all_short,
    })
}

// The trial of a method's request with one value.
fn try_request(
    alloc: Global,
    pair: &Pair<'_, '_>,
    back: bool,
    reach: &Reach,
    value: &Value,
) -> Result<Trial, OutOfMemory>
    ensures { IfOk result (λ trial.
        IsFirstTrial pair.now.old pair.now.new (request_of back reach.now value.now ∷ []) trial) }
{
    let copy = value.try_clone(alloc)?;
    let args = one_value(alloc, copy)?;
    let call = Call {
        back,
        interface: reach.interface,
        method: reach.method,
        values: Values::Arguments(args),
    };
    try_one(alloc, pair, call)
}
