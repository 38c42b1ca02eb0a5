//! What the server answers the request of a call.
ghost use Rattle.std.specs.Prelude.{◌≡◌, option_map, IfOk};
ghost use Rattle.call_runner.specs.Lines as meant;
ghost use Rattle.call_runner.specs.steps.Served.{IsServed};
ghost use Rattle.call_scripts.specs.Calls.{TargetFits, target_of};
ghost use Rattle.wire_model.specs.Calls.{answer_of};

use aidl_base::{OutOfMemory, Profile};
use aidl_values::{Answer, Value};
use call_scripts::{Call, Target};
use std::alloc::Global;
use stub_dispatch::{Answered, Service, Side, UNKNOWN_TRANSACTION, not_scripted};

// What the server answers a request with a code: its interface's service, whose handler answers by the line.
#[tactic(auto, using(crate::proofs::Unscripted::scripted_fits, crate::proofs::Served::serves))]
pub fn serve(
    alloc: Global,
    profile: Profile,
    server: &Side<'_>,
    call: &Call,
    code: u32,
    bytes: &[u8],
) -> Result<Answered, OutOfMemory>
    requires { TargetFits server.now call.now.server (option_map target_of call.now.target) }
    ensures { IfOk result
        (λ a. IsServed server.now call.now.server (option_map target_of call.now.target)
        (meant.received_at profile server.now call.now.server code bytes.now) a) }
{
    match call.server {
        Some(interface) => {
            let target = &call.target;
            let handler = |method: u32, _args: &[Value]| scripted(alloc, target, method);
            let service = Service::new(server, profile, interface, handler);
            service.transact(alloc, code, bytes)
        }
        None => Ok(Answered {
            transport: UNKNOWN_TRANSACTION,
            saw: None,
            reply: None,
        }),
    }
}

// What the handler answers for a method: the scripted answer for the line's, and an exception for any other.
fn scripted(alloc: Global, target: &Option<Target>, method: u32) -> Result<Answer, OutOfMemory>
    ensures { IfOk result
        (λ a. answer_of a ≡ meant.scripted (option_map target_of target.now) method) }
{
    match target {
        Some(target) => {
            if target.method == method {
                target.answer.try_clone(alloc)
            } else {
                not_scripted(alloc)
            }
        }
        None => not_scripted(alloc),
    }
}
