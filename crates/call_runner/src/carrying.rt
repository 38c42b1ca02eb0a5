//! Parcels of a call on their way over a link.
ghost use Rattle.std.specs.Prelude.{◌≡◌, [], true, option_map, IfOk};
ghost use Rattle.aidl_outside.specs.Carries.{AreFaithful, entry};
ghost use Rattle.aidl_outside.specs.Faults.{FailedIn};
ghost use Rattle.aidl_outside.specs.Parcel.{parcel, parcel_of};
ghost use Rattle.call_runner.specs.Lines.{reply_entries, request_entry};
ghost use Rattle.call_runner.specs.Runs.{IsFirst, RunCause};
ghost use Rattle.call_runner.specs.steps.Exchanges.{AddsListed, AddsOne, CanBeSent, IfLinkFailed, delivered_of, listed};
ghost use Rattle.call_scripts.specs.Calls.{call_of, callee};
ghost use Rattle.wire_model.specs.Calls.{code_at, method_at};
ghost use Rattle.wire_model.specs.MethodOf.{method_of};
ghost use Rattle.wire_model.specs.Requests.{request};

use crate::line::RunFault;
use aidl_base::{OutOfMemory, Row};
use aidl_outside::{Carried, CarryFault, Link, Way};
use aidl_schema::{Schema, law_valid, methods_at};
use call_scripts::Call;
use std::alloc::Global;
use stub_dispatch::{Callee, Side, request};

// Carries the request of a call, with the code of the client's method.
pub fn send_request<L: Link>(
    alloc: Global,
    client: &Side<'_>,
    call: &Call,
    link: &mut L,
) -> Result<Carried, RunFault>
    requires sendable { CanBeSent client.now (call_of call.now) }
    ensures entry { IfOk result (λ e. e ≡ request_entry client.now (call_of call.now) e.delivered) }
    ensures log { AddsOne (L.log link.old) (L.log link.new) result }
    ensures faithful { L.is_faithful link.old ≡ true → IfOk result (λ e. e.delivered ≡ e.sent) }
    ensures nature { L.is_faithful link.new ≡ L.is_faithful link.old }
    ensures cause { RunCause (L.fault_record link.old) (L.fault_record link.new) result }
    ensures failed { IfLinkFailed result
        (FailedIn (L.fault_record link.new)
        (λ sent. sent ≡ parcel_of (request_entry client.now (call_of call.now) []))) }
{
    let bytes = request_bytes(alloc, client, call)?;
    let code = code_of(client.schema(), call.interface, call.method);
    carry(alloc, Way::Request, code, bytes, link)
}

// The bytes of the request of a call. They are few enough, so nothing but memory may lack.
fn request_bytes(alloc: Global, client: &Side<'_>, call: &Call) -> Result<Vec<u8>, OutOfMemory>
    requires sendable { CanBeSent client.now (call_of call.now) }
    ensures { IfOk result (λ bytes. bytes.items ≡ request (callee client.now (call_of call.now))
        (call_of call.now).args) }
{
    let args = call.args.as_slice();
    let callee = Callee::new(client, call.interface, call.method);
    match request(alloc, &callee, args) {
        Ok(bytes) => Ok(bytes),
        Err(_) => Err(OutOfMemory),
    }
}

// The transaction code of a method.
fn code_of(schema: &Schema, interface: u32, method: u32) -> u32
    ensures { result ≡ code_at (method_of schema.now.decls interface method) }
{
    law_valid(schema);
    match id_of(schema, interface, method) {
        Some(id) => id + 1,
        None => 0,
    }
}

// The id of a method, where it is there.
fn id_of(schema: &Schema, interface: u32, method: u32) -> Option<u32>
    ensures { result ≡ option_map (λ w. w.id)
        (method_at (method_of schema.now.decls interface method)) }
{
    match methods_at(schema, interface).get(method as usize) {
        Some(method) => Some(method.id),
        None => None,
    }
}

// Carries the reply to a request with a code, where there is one.
pub fn send_reply<L: Link>(
    alloc: Global,
    code: u32,
    reply: Option<Row<u8>>,
    link: &mut L,
) -> Result<Option<Carried>, RunFault>
    ensures entry { IfOk result (λ e. listed e ≡ reply_entries code reply (delivered_of e)) }
    ensures log { AddsListed (L.log link.old) (L.log link.new) result }
    ensures faithful { L.is_faithful link.old ≡ true → IfOk result (λ e. AreFaithful (listed e)) }
    ensures nature { L.is_faithful link.new ≡ L.is_faithful link.old }
    ensures cause { RunCause (L.fault_record link.old) (L.fault_record link.new) result }
    ensures failed { IfLinkFailed result
        (FailedIn (L.fault_record link.new) (IsFirst (reply_entries code reply []))) }
{
    match reply {
        Some(bytes) => {
            let entry = carry(alloc, Way::Reply, code, bytes.into_vec(), link)?;
            Ok(Some(entry))
        }
        None => Ok(None),
    }
}

// Carries a parcel.
fn carry<L: Link>(
    alloc: Global,
    way: Way,
    code: u32,
    bytes: Vec<u8>,
    link: &mut L,
) -> Result<Carried, RunFault>
    ensures entry { IfOk result (λ e. e ≡ entry way code bytes.items e.delivered) }
    ensures log { AddsOne (L.log link.old) (L.log link.new) result }
    ensures faithful { L.is_faithful link.old ≡ true → IfOk result (λ e. e.delivered ≡ e.sent) }
    ensures nature { L.is_faithful link.new ≡ L.is_faithful link.old }
    ensures cause { RunCause (L.fault_record link.old) (L.fault_record link.new) result }
    ensures failed { IfLinkFailed result
        (FailedIn (L.fault_record link.new) (λ sent. sent ≡ parcel way code bytes.items)) }
{
    match link.carry(alloc, way, code, bytes.as_slice()) {
        Ok(delivered) => Ok(Carried {
            way,
            code,
            sent: Row::from_vec(bytes),
            delivered: Row::from_vec(delivered),
        }),
        Err(CarryFault::Failed) => Err(RunFault::LinkFault),
        Err(CarryFault::OutOfMemory) => Err(RunFault::OutOfMemory),
    }
}
