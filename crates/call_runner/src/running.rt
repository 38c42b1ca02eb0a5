//! A line of a calls file run between a client and a server over a link.
ghost use Rattle.std.specs.Prelude.{◌≡◌, true, Ok, IfErr, IfOk};
ghost use Rattle.aidl_outside.specs.Carries.{AreFaithful};
ghost use Rattle.aidl_outside.specs.Told.{Adds};
ghost use Rattle.call_runner.specs.Runs.{AreNamed, IsTyped, LineRuns, RunCause, Stops, line_data, projected, within_one};
ghost use Rattle.call_runner.specs.steps.Exchanges.{IsExchange, carried_of, delivered_of};
ghost use Rattle.call_scripts.specs.Calls.{CallFits, call_of};
ghost use Rattle.call_scripts.specs.Script.{script};
ghost use Rattle.wire_model.specs.Outcome.{OneFollows, SameWays};

use crate::exchange::{Exchange, carry_call};
use crate::line::{LineOut, LineRun, RunFault};
use crate::meaning::{law_projected, law_received, law_typed, law_within};
use crate::reporting::report;
use aidl_base::{OutOfMemory, Profile, Row};
use aidl_outside::{Carried, Link};
use call_scripts::{Call, Script, script_of};
use std::alloc::Global;
use stub_dispatch::Side;

/// Runs a line of a calls file between a client and a server, both of which read by the profile: what the line means is carried over
/// the link as a request, the server's service transacts what is delivered, its reply is carried, and the client reads what is
/// delivered. `line` is without its newline. A line that is refused carries nothing. Where the server lacks the interface the
/// request is carried, and its transport status is -74. The server's handler gives the scripted answer for the line's method and
/// exception -5 with the message `not scripted` for any other. No code of an interface that both have may be that of a oneway method
/// in one schema and of a two-way method in the other. `LinkFault` comes only where the link's count rose.
pub fn run_line<L: Link>(
    alloc: Global,
    profile: Profile,
    client: &Side<'_>,
    server: &Side<'_>,
    line: &[u8],
    link: &mut L,
) -> Result<LineRun, RunFault>
    requires ways { SameWays client.now server.now }
    // What is carried, what is replied and what is reported.
    ensures line { IfOk result (λ run. LineRuns profile client.now server.now
        (script client.now server.now line.now) run) }
    // The link's log gains exactly what is carried.
    ensures log { IfOk result (λ run. Adds (L.log link.old) (L.log link.new) run.carried) }
    ensures faithful { L.is_faithful link.old ≡ true
        → IfOk result (λ run. AreFaithful run.carried) }
    // After a fault it has gained the carries that succeeded; what failed is the parcel that was due then.
    ensures stops { IfErr result
        (λ fault. Stops profile client.now server.now (script client.now server.now line.now)
        (L.is_faithful link.old) (L.log link.old) (L.log link.new)
        (L.fault_record link.new) fault) }
    ensures nature { L.is_faithful link.new ≡ L.is_faithful link.old }
    // A fault of the link comes only where its count rose.
    ensures cause { RunCause (L.fault_record link.old) (L.fault_record link.new) result }
    // The values have the types of the methods.
    ensures typed { IfOk result (λ run. IsTyped client.now server.now run.methods run.out) }
    // Between two schemas of which one follows the other, over a faithful link, the line comes to its outcome, and its values are those of
    // the methods of the call's names.
    ensures outcome { OneFollows client.now server.now → L.is_faithful link.old ≡ true
        → IfOk result (λ run. line_data run.out ≡ projected client.now server.now
        (script client.now server.now line.now)) }
    ensures named { OneFollows client.now server.now → L.is_faithful link.old ≡ true
        → IfOk result (λ run. AreNamed (script client.now server.now line.now) run.methods) }
    // Over one tree and a faithful link the handler sees what was sent, and the client has what was answered.
    ensures within { server.now ≡ client.now → L.is_faithful link.old ≡ true
        → IfOk result (λ run. line_data run.out ≡ within_one client.now
        (script client.now server.now line.now)) }
{
    match script_of(alloc, client, server, line)? {
        Script::Refused(why) => Ok(LineRun {
            out: LineOut::Refused(why),
            carried: Row::new(alloc),
            methods: None,
        }),
        Script::Call(call) => run_call(alloc, profile, client, server, &call, link),
    }
}

// Runs a call.
fn run_call<L: Link>(
    alloc: Global,
    profile: Profile,
    client: &Side<'_>,
    server: &Side<'_>,
    call: &Call,
    link: &mut L,
) -> Result<LineRun, RunFault>
    requires ways { SameWays client.now server.now }
    requires fits { CallFits client.now server.now (call_of call.now) }
    ensures line { IfOk result
        (λ run. LineRuns profile client.now server.now (Ok (call_of call.now)) run) }
    ensures log { IfOk result (λ run. Adds (L.log link.old) (L.log link.new) run.carried) }
    ensures faithful { L.is_faithful link.old ≡ true
        → IfOk result (λ run. AreFaithful run.carried) }
    ensures stops { IfErr result
        (λ fault. Stops profile client.now server.now (Ok (call_of call.now))
        (L.is_faithful link.old) (L.log link.old) (L.log link.new)
        (L.fault_record link.new) fault) }
    ensures nature { L.is_faithful link.new ≡ L.is_faithful link.old }
    ensures cause { RunCause (L.fault_record link.old) (L.fault_record link.new) result }
    ensures typed { IfOk result (λ run. IsTyped client.now server.now run.methods run.out) }
    ensures outcome { OneFollows client.now server.now → L.is_faithful link.old ≡ true
        → IfOk result (λ run. line_data run.out
        ≡ projected client.now server.now (Ok (call_of call.now))) }
    ensures named { OneFollows client.now server.now → L.is_faithful link.old ≡ true
        → IfOk result (λ run. AreNamed (Ok (call_of call.now)) run.methods) }
    ensures within { server.now ≡ client.now → L.is_faithful link.old ≡ true
        → IfOk result (λ run. line_data run.out ≡ within_one client.now (Ok (call_of call.now))) }
{
    let exchange = carry_call(alloc, profile, client, server, call, link)?;
    let run = report_call(alloc, profile, client, server, call, exchange)?;
    Ok(run)
}

// What a call comes to, with all that is known of it.
fn report_call(
    alloc: Global,
    profile: Profile,
    client: &Side<'_>,
    server: &Side<'_>,
    call: &Call,
    exchange: Exchange,
) -> Result<LineRun, OutOfMemory>
    requires ways { SameWays client.now server.now }
    requires fits { CallFits client.now server.now (call_of call.now) }
    requires exchange { IsExchange profile client.now server.now (call_of call.now) exchange }
    ensures line { IfOk result
        (λ run. LineRuns profile client.now server.now (Ok (call_of call.now)) run) }
    ensures carried { IfOk result (λ run. run.carried ≡ carried_of exchange) }
    ensures typed { IfOk result (λ run. IsTyped client.now server.now run.methods run.out) }
    ensures outcome { OneFollows client.now server.now → AreFaithful (carried_of exchange)
        → IfOk result (λ run. line_data run.out
        ≡ projected client.now server.now (Ok (call_of call.now))) }
    ensures named { OneFollows client.now server.now → AreFaithful (carried_of exchange)
        → IfOk result (λ run. AreNamed (Ok (call_of call.now)) run.methods) }
    ensures within { server.now ≡ client.now → AreFaithful (carried_of exchange)
        → IfOk result (λ run. line_data run.out ≡ within_one client.now (Ok (call_of call.now))) }
{
    let bytes = exchange.request.delivered.as_slice();
    let sent = exchange.request.sent.as_slice();
    let code = exchange.request.code;
    let reply = delivered(&exchange.reply);
    let client_schema = client.schema();
    let server_schema = server.schema();
    law_typed(
        profile,
        client_schema,
        server_schema,
        call,
        code,
        bytes,
        reply,
    );
    law_projected(
        alloc,
        profile,
        client_schema,
        server_schema,
        call,
        sent,
        reply,
    );
    law_within(alloc, client_schema, server_schema, call);
    law_received(profile, server_schema, call, code, bytes);
    report(alloc, profile, client, server, call, exchange)
}

// The bytes that were delivered of a reply.
fn delivered(reply: &Option<Carried>) -> &[u8]
    ensures { result.now ≡ delivered_of reply.now }
{
    match reply {
        Some(entry) => entry.delivered.as_slice(),
        None => &[],
    }
}
