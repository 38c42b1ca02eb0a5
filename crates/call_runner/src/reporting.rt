//! What a call comes to, once its parcels were carried.
ghost use Rattle.std.specs.Prelude.{◌≡◌, ◌≢◌, ◌<◌, ◌∷◌, [], ℤ, Err, None, Some, false, length, option_map, pos, IfOk};
ghost use Rattle.aidl_schema.specs.Find as find;
ghost use Rattle.aidl_values.specs.View.{views};
ghost use Rattle.stub_dispatch.specs.Got.{got_of};
ghost use Rattle.call_runner.specs.Lines.{line_of, received, received_at};
ghost use Rattle.call_runner.specs.Runs.{line_data, methods_by};
ghost use Rattle.call_runner.specs.steps.Exchanges.{IsExchange, carried_of, delivered_of};
ghost use Rattle.call_runner.specs.steps.Served.{transport_of, unreplied_line};
ghost use Rattle.call_scripts.specs.Calls.{call_of, callee};
ghost use Rattle.wire_model.specs.Calls.{is_oneway};
ghost use Rattle.wire_model.specs.Receiver as receiver;
ghost use Rattle.wire_model.specs.Receiver.{stub};

use crate::exchange::Exchange;
use crate::line::{LineOut, LineRun, Methods};
use aidl_base::{OutOfMemory, Profile, Row};
use aidl_outside::Carried;
use aidl_schema::method_of_code;
use aidl_values::Value;
use call_scripts::Call;
use std::alloc::Global;
use stub_dispatch::{Callee, Got, Side, read_answer};

// What a call comes to. Where a reply was carried, its method isn't oneway to the client.
pub fn report(
    alloc: Global,
    profile: Profile,
    client: &Side<'_>,
    server: &Side<'_>,
    call: &Call,
    exchange: Exchange,
) -> Result<LineRun, OutOfMemory>
    requires there { call.now.method < length (find.methods_at client.now call.now.interface) }
    requires exchange { IsExchange profile client.now server.now (call_of call.now) exchange }
    requires two_way { exchange.reply ≢ None → is_oneway (callee client.now (call_of call.now))
        ≡ false }
    requires refused { (s : ℤ)
        → received profile client.now server.now (call_of call.now) exchange.request.delivered
        ≡ Err s → s ≢ pos 0 }
    ensures carried { IfOk result (λ run. run.carried ≡ carried_of exchange) }
    ensures line { IfOk result (λ run. line_data run.out
        ≡ line_of profile client.now server.now (call_of call.now)
        exchange.request.delivered (delivered_of exchange.reply)) }
    ensures methods { IfOk result (λ run. run.methods
        ≡ methods_by (call_of call.now) call.now.server
        (received profile client.now server.now (call_of call.now) exchange.request.delivered)) }
{
    let Exchange {
        request,
        transport,
        saw,
        reply,
    } = exchange;
    let bytes = request.delivered.as_slice();
    let methods = methods_of(profile, server, call, request.code, bytes, transport);
    match reply {
        Some(reply) => {
            let bytes = reply.delivered.as_slice();
            let got = got_by(alloc, profile, client, call, bytes)?;
            let carried = both(alloc, request, reply)?;
            let out = LineOut::Done { saw, client: got };
            Ok(LineRun {
                out,
                carried,
                methods,
            })
        }
        None => {
            let carried = only(alloc, request)?;
            let out = unreplied(transport, saw);
            Ok(LineRun {
                out,
                carried,
                methods,
            })
        }
    }
}

// What the client makes of a reply.
fn got_by(
    alloc: Global,
    profile: Profile,
    client: &Side<'_>,
    call: &Call,
    bytes: &[u8],
) -> Result<Got, OutOfMemory>
    requires there { call.now.method < length (find.methods_at client.now call.now.interface) }
    requires two_way { is_oneway (callee client.now (call_of call.now)) ≡ false }
    ensures { IfOk result (λ got. got_of got ≡ receiver.client profile
        (callee client.now (call_of call.now)) bytes.now) }
{
    let callee = Callee::new(client, call.interface, call.method);
    read_answer(alloc, profile, &callee, bytes)
}

// What a call comes to where no reply was sent.
fn unreplied(transport: i32, saw: Option<Row<Value>>) -> LineOut
    ensures { line_data result ≡ unreplied_line transport (option_map views saw) }
{
    if transport == 0 {
        LineOut::OnewayDone { saw }
    } else {
        LineOut::Transport { status: transport }
    }
}

// The methods by whose types the values are, where the request isn't refused.
fn methods_of(
    profile: Profile,
    server: &Side<'_>,
    call: &Call,
    code: u32,
    bytes: &[u8],
    transport: i32,
) -> Option<Methods>
    requires transport { transport
        ≡ transport_of (received_at profile server.now call.now.server code bytes.now) }
    requires refused { (s : ℤ)
        → received_at profile server.now call.now.server code bytes.now ≡ Err s
        → s ≢ pos 0 }
    ensures { result
        ≡ methods_by (call_of call.now) call.now.server
        (received_at profile server.now call.now.server code bytes.now) }
{
    if transport != 0 {
        return None;
    }
    match call.server {
        Some(other) => methods_at(profile, server, call, other, code, bytes),
        None => None,
    }
}

// The same where the server has the interface and doesn't refuse.
fn methods_at(
    profile: Profile,
    server: &Side<'_>,
    call: &Call,
    other: u32,
    code: u32,
    bytes: &[u8],
) -> Option<Methods>
    requires accepted { transport_of (stub profile server.now other code bytes.now) ≡ pos 0 }
    requires refused { (s : ℤ) → stub profile server.now other code bytes.now ≡ Err s → s ≢ pos 0 }
    ensures { result
        ≡ methods_by (call_of call.now) (Some other)
        (stub profile server.now other code bytes.now) }
{
    match method_of_code(server.schema(), other, code) {
        Some(called) => Some(Methods {
            interface: call.interface,
            method: call.method,
            server: other,
            called,
        }),
        None => None,
    }
}

fn only(alloc: Global, entry: Carried) -> Result<Row<Carried>, OutOfMemory>
    ensures { IfOk result (λ row. row ≡ entry ∷ []) }
{
    let mut row = Row::new(alloc);
    row.push(entry)?;
    Ok(row)
}

fn both(alloc: Global, first: Carried, second: Carried) -> Result<Row<Carried>, OutOfMemory>
    ensures { IfOk result (λ row. row ≡ first ∷ second ∷ []) }
{
    let mut row = only(alloc, first)?;
    row.push(second)?;
    Ok(row)
}
