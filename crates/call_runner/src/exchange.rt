//! The carries of a call: its request, and the reply where the server sends one.
ghost use Rattle.std.specs.Prelude.{◌≡◌, true, Ok, IfErr, IfOk};
ghost use Rattle.aidl_outside.specs.Carries.{AreFaithful};
ghost use Rattle.aidl_outside.specs.Told.{Adds};
ghost use Rattle.call_runner.specs.Runs.{RunCause, Stops};
ghost use Rattle.call_runner.specs.steps.Exchanges.{IsExchange, carried_of};
ghost use Rattle.call_scripts.specs.Calls.{CallFits, call_of};

use crate::carrying::{send_reply, send_request};
use crate::line::RunFault;
use crate::serving::serve;
use aidl_base::{Profile, Row};
use aidl_outside::{Carried, Link};
use aidl_values::Value;
use call_scripts::Call;
use std::alloc::Global;
use stub_dispatch::{Answered, Side};

/// What was carried of a call, and what the server made of it: the transport status, and what the handler saw, where it was called.
#[derive(Drop)]
pub struct Exchange {
    pub request: Carried,
    pub transport: i32,
    pub saw: Option<Row<Value>>,
    pub reply: Option<Carried>,
}

// Carries the request of a call, lets the server answer what is delivered, and carries its reply.
pub fn carry_call<L: Link>(
    alloc: Global,
    profile: Profile,
    client: &Side<'_>,
    server: &Side<'_>,
    call: &Call,
    link: &mut L,
) -> Result<Exchange, RunFault>
    requires fits { CallFits client.now server.now (call_of call.now) }
    ensures exchange { IfOk result
        (λ x. IsExchange profile client.now server.now (call_of call.now) x) }
    ensures log { IfOk result (λ x. Adds (L.log link.old) (L.log link.new) (carried_of x)) }
    ensures faithful { L.is_faithful link.old ≡ true
        → IfOk result (λ x. AreFaithful (carried_of x)) }
    ensures stops { IfErr result
        (λ fault. Stops profile client.now server.now (Ok (call_of call.now))
        (L.is_faithful link.old) (L.log link.old) (L.log link.new)
        (L.fault_record link.new) fault) }
    ensures nature { L.is_faithful link.new ≡ L.is_faithful link.old }
    ensures cause { RunCause (L.fault_record link.old) (L.fault_record link.new) result }
{
    let request = send_request(alloc, client, call, link)?;
    let code = request.code;
    let Answered {
        transport,
        saw,
        reply,
    } = serve(
        alloc,
        profile,
        server,
        call,
        code,
        request.delivered.as_slice(),
    )?;
    let reply = send_reply(alloc, code, reply, link)?;
    Ok(Exchange {
        request,
        transport,
        saw,
        reply,
    })
}
