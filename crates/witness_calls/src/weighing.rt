//! The bytes of a call where it counts, with its two sides.
ghost use Rattle.std.specs.Prelude.{◌≡◌, ◌<◌, false, length, IfOk, List};
ghost use Rattle.aidl_schema.specs.declared.schema.Decl.{Decl};
ghost use Rattle.aidl_schema.specs.Find.{methods_at};
ghost use Rattle.compat_witness.specs.Candidates.{fit_between};
ghost use Rattle.wire_model.specs.MethodOf.{method_of};
ghost use Rattle.witness_calls.specs.Seen.{values_seen};
ghost use Rattle.witness_calls.specs.Counted.{IsWeighedBetween};

use crate::call::{Call, Values};
use crate::fitting::args_fit;
use crate::replies::weigh_reply;
use crate::requests::weigh_request;
use crate::showing::Showing;
use crate::version::Version;
use aidl_base::OutOfMemory;
use std::alloc::Global;

/// The bytes of a call that counts between a client and a server, with its two sides; None of any other. It counts where its values fit
/// and its bytes are at most 1,048,576. All reading is strict. `OutOfMemory` is the one refusal (own).
pub fn weigh(
    alloc: Global,
    client: &Version<'_>,
    server: &Version<'_>,
    call: &Call,
) -> Result<Option<Showing>, OutOfMemory>
    requires { call.now.method < length (methods_at client.now call.now.interface) }
    ensures { IfOk result (λ o. IsWeighedBetween
        (method_of client.now call.now.interface call.now.method) server.now
        (values_seen call.now.values) o) }
{
    let method = client.callee(call.interface, call.method);
    match &call.values {
        Values::Arguments(args) => weigh_request(alloc, &method, server, args.as_slice()),
        Values::Answer(answer) => weigh_reply(alloc, &method, server, answer),
    }
}

/// Whether the values of a call may fit: of a request whether they do.
#[tactic(auto, using(crate::proofs::Tests::fails))]
pub fn may_fit(client: &Version<'_>, call: &Call) -> bool
    requires { call.now.method < length (methods_at client.now call.now.interface) }
    ensures { result ≡ false → (B : List Decl)
        → fit_between (method_of client.now call.now.interface call.now.method) B
        (values_seen call.now.values) → ⊥ }
{
    match &call.values {
        Values::Arguments(args) => {
            args_fit(&client.callee(call.interface, call.method), args.as_slice())
        }
        Values::Answer(_) => true,
    }
}
