//! What a call shows.
ghost use Rattle.std.specs.Prelude.{◌≡◌, IfOk, List};
ghost use Rattle.aidl_schema.specs.declared.schema.Decl.{Decl};
ghost use Rattle.compat_witness.specs.Candidates.{client_of, server_of};
ghost use Rattle.witness_calls.specs.Showing.{IsTried};
ghost use Rattle.witness_calls.specs.Seen.{call_seen};
ghost use Rattle.witness_calls.specs.steps.Shown.{IsShownBy};

use crate::call::Call;
use crate::reading::Reading;
use crate::same::same_reading;
use crate::version::Version;
use crate::weighing::{may_fit, weigh};
use aidl_base::{OutOfMemory, Row};
use std::alloc::Global;

/// What a call that counts comes to: its bytes, what is read of them, and what its values are projected to. It shows a broken rule where the
/// two differ.
#[derive(Drop)]
pub struct Showing {
    pub bytes: Row<u8>,
    pub read: Reading,
    pub projected: Reading,
}

/// A call that was tried: what it shows, where it counts and its two sides differ; and whether it is known that its bytes are at most
/// 1,048,576 if its values fit.
#[derive(Drop)]
pub struct Tried {
    pub showing: Option<Showing>,
    pub short: bool,
}

/// What a call shows, where it counts and its two sides differ; else None. It counts where its values fit and its bytes are at
/// most 1,048,576. All reading is strict. `OutOfMemory` is the one refusal (own).
pub fn try_call(
    alloc: Global,
    old: &Version<'_>,
    new: &Version<'_>,
    call: &Call,
) -> Result<Tried, OutOfMemory>
    ensures { IfOk result (λ tried. IsTried old.now new.now (call_seen call.now) tried) }
{
    if call.back {
        try_between(alloc, new, old, call)
    } else {
        try_between(alloc, old, new, call)
    }
}

// The same between a client and a server.
#[tactic(auto, using(crate::proofs::Shown::weighed_tried, crate::proofs::Shown::none_tried))]
fn try_between(
    alloc: Global,
    client: &Version<'_>,
    server: &Version<'_>,
    call: &Call,
) -> Result<Tried, OutOfMemory>
    ensures { (old new : List Decl) → client.now ≡ client_of call.now.back old new
        → server.now ≡ server_of call.now.back old new
        → IfOk result (λ tried. IsTried old new (call_seen call.now) tried) }
{
    if call.method as usize >= client.methods(call.interface).len() {
        return Ok(Tried {
            showing: None,
            short: false,
        });
    }
    match weigh(alloc, client, server, call)? {
        Some(showing) => Ok(shown(showing)),
        None => Ok(Tried {
            showing: None,
            short: !may_fit(client, call),
        }),
    }
}

// What a call that counts shows: something where its sides differ.
#[tactic(auto, using(crate::proofs::Shown::same_shown, crate::proofs::Shown::other_shown))]
fn shown(showing: Showing) -> Tried
    ensures { IsShownBy showing result }
{
    if same_reading(&showing.read, &showing.projected) {
        return Tried {
            showing: None,
            short: true,
        };
    }
    Tried {
        showing: Some(showing),
        short: true,
    }
}
