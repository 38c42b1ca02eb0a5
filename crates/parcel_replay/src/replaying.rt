//! A line of a trace, answered again.
ghost use Rattle.std.specs.Prelude.{◌≡◌, List, ℕ, Some, IfOk, is_some, true};
ghost use Rattle.parcel_replay.specs.Replays.{IsUnscripted, IsLawful, IsLawfulRequest, Replays};
ghost use Rattle.parcel_replay.specs.Traced.{bytes_of, traced, traced_by, request_of, within_parcel};
ghost use Rattle.aidl_base.specs.declared.profile.Profile.TheVariants.{Strict};
ghost use Rattle.stub_dispatch.specs.Answers.{Answers};
ghost use Rattle.stub_dispatch.specs.Planned.{ArePlansOf};
ghost use Rattle.wire_model.specs.Receiver.{stub};

use crate::parcels::{bytes_of, is_too_large};
use crate::words::{request_of, request_text};
use aidl_base::{OutOfMemory, Profile};
use aidl_schema::Schema;
use aidl_values::Value;
use marshal_plans::Plans;
use std::alloc::Global;
use stub_dispatch::{Answered, Service, Side, not_scripted};
use wire_model::law_stub;

/// What a line of a trace is answered again.
#[derive(Drop)]
pub enum Replayed {
    /// It is no request's line.
    Other,
    /// It begins as one, and isn't `request CODE SENT DELIVERED`.
    NotTrace,
    /// More than 1,048,576 bytes were delivered.
    TooLarge,
    /// What the service answers, whose handler answers exception -5 `not scripted`.
    Got(Answered),
}

/// What a line of a trace is answered again by the interface with a number: of a request the code and the bytes that were delivered are
/// received, read strictly. A line that is refused takes no memory.
pub fn replay_line(
    alloc: Global,
    server: &Schema,
    plans: &Plans,
    interface: u32,
    line: &[u8],
) -> Result<Replayed, OutOfMemory>
    requires { ArePlansOf plans.now server.now.decls }
    ensures replays { IfOk result (Replays server.now.decls interface (traced line.now)) }
    ensures lawful { IfOk result (λ r. IsLawfulRequest server.now.decls interface
        (traced line.now)) }
{
    let Some(text) = request_text(line) else {
        return Ok(Replayed::Other);
    };
    match request_of(text) {
        Some((code, delivered)) => {
            let side = Side::new(server, plans);
            replay_request(alloc, &side, interface, code, delivered)
        }
        None => Ok(Replayed::NotTrace),
    }
}

// The same of a code, and of the word of the bytes that were delivered.
fn replay_request(
    alloc: Global,
    side: &Side<'_>,
    interface: u32,
    code: u32,
    delivered: &[u8],
) -> Result<Replayed, OutOfMemory>
    requires { is_some (bytes_of delivered.now) ≡ true }
    ensures replays { IfOk result (λ r. (b : List ℕ)
        → bytes_of delivered.now ≡ Some b → Replays side.now interface (within_parcel code b) r) }
    ensures lawful { IfOk result (λ r. (b : List ℕ) → bytes_of delivered.now ≡ Some b
        → IsLawfulRequest side.now interface (within_parcel code b)) }
{
    if is_too_large(delivered) {
        return Ok(Replayed::TooLarge);
    }
    let bytes = bytes_of(alloc, delivered)?;
    let answered = answer(alloc, side, interface, code, bytes.as_slice())?;
    Ok(Replayed::Got(answered))
}

// What the service answers.
#[tactic(auto, using(stub_dispatch::proofs::lemmas::Unscripted::unscripted_fits))]
fn answer(
    alloc: Global,
    side: &Side<'_>,
    interface: u32,
    code: u32,
    bytes: &[u8],
) -> Result<Answered, OutOfMemory>
    ensures answers { IfOk result (λ a. Answers IsUnscripted side.now interface a
        (stub Strict side.now interface code bytes.now)) }
    ensures lawful { IfOk result (λ a. IsLawful side.now interface code
        (stub Strict side.now interface code bytes.now)) }
{
    law_stub(Profile::Strict, side.schema(), interface, code, bytes);
    let handler = |_method: u32, _args: &[Value]| not_scripted(alloc);
    let service = Service::new(side, Profile::Strict, interface, handler);
    service.transact(alloc, code, bytes)
}
