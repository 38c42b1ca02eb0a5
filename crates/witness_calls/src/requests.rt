//! A request between two versions: its bytes where it counts, what is read of them, and what its values are projected to.
ghost use Rattle.std.specs.Prelude.{◌≡◌, length, IfOk};
ghost use Rattle.aidl_values.specs.View.{views};
ghost use Rattle.compat_witness.specs.Candidates.{arguments};
ghost use Rattle.compat_witness.specs.Sides.{projected_request, read_request, side_of};
ghost use Rattle.stub_dispatch.specs.Receipts.{receipt_of};
ghost use Rattle.wire_model.specs.Requests.{ArgsFit, request};
ghost use Rattle.witness_calls.specs.Seen.{reading_seen};
ghost use Rattle.witness_calls.specs.Counted.{IsCounted, IsWeighedBetween};
ghost use Rattle.witness_calls.specs.steps.Projected.{called_at};

use crate::arguments::project_arguments;
use crate::ends::Ends;
use crate::fitting::args_fit;
use crate::reading::Reading;
use crate::showing::Showing;
use crate::version::Version;
use crate::version_method::VersionMethod;
use aidl_base::{OutOfMemory, Profile, Row};
use aidl_values::Value;
use std::alloc::Global;
use stub_dispatch::{BAD_VALUE, Receipt, UNKNOWN_TRANSACTION, WriteFault, receive_call, request};

/// The bytes of a request that counts, with its two sides; None of any other.
pub fn weigh_request(
    alloc: Global,
    client: &VersionMethod<'_, '_>,
    server: &Version<'_>,
    args: &[Value],
) -> Result<Option<Showing>, OutOfMemory>
    ensures { IfOk result (λ o. IsWeighedBetween client.now server.now
        (arguments (views args.now)) o) }
{
    let Some(bytes) = counted_request(alloc, client, args)? else {
        return Ok(None);
    };
    let read = read_request(alloc, client, server, bytes.as_slice())?;
    let projected = project_request(alloc, client, server, args)?;
    Ok(Some(Showing {
        bytes,
        read,
        projected,
    }))
}

// The bytes of a request that counts, None of any other.
fn counted_request(
    alloc: Global,
    client: &VersionMethod<'_, '_>,
    args: &[Value],
) -> Result<Option<Row<u8>>, OutOfMemory>
    ensures { IfOk result (λ o. IsCounted
        (ArgsFit client.now (views args.now))
        (request client.now (views args.now)) o) }
{
    if !args_fit(client, args) {
        return Ok(None);
    }
    match request(alloc, client.callee(), args) {
        Ok(bytes) => Ok(Some(Row::from_vec(bytes))),
        Err(WriteFault::TooLarge) => Ok(None),
        Err(WriteFault::OutOfMemory) => Err(OutOfMemory),
    }
}

// What the server's interface of that name makes of the bytes. Its method is found by the code that the client sends.
fn read_request(
    alloc: Global,
    client: &VersionMethod<'_, '_>,
    server: &Version<'_>,
    bytes: &[u8],
) -> Result<Reading, OutOfMemory>
    ensures { IfOk result (λ r. reading_seen r ≡ read_request client.now server.now bytes.now) }
{
    let Some(interface) = client.interface_in(server) else {
        return Ok(Reading::Transport(UNKNOWN_TRANSACTION));
    };
    match server.method_of_id(interface, client.declared().id) {
        Some(method) => {
            let target = server.callee(interface, method);
            let receipt = receive_call(alloc, Profile::Strict, target.callee(), bytes)?;
            Ok(as_reading(receipt))
        }
        None => Ok(Reading::Transport(UNKNOWN_TRANSACTION)),
    }
}

// What a stub makes of a request, as one side.
fn as_reading(receipt: Receipt) -> Reading
    ensures { reading_seen result ≡ side_of (receipt_of receipt) }
{
    match receipt {
        Receipt::Refused { status } => Reading::Transport(status),
        Receipt::Left { method } => Reading::Left(method),
        Receipt::Called { method, saw } => Reading::Called { method, saw },
    }
}

// What the arguments are to the server's method of the same names.
fn project_request(
    alloc: Global,
    client: &VersionMethod<'_, '_>,
    server: &Version<'_>,
    args: &[Value],
) -> Result<Reading, OutOfMemory>
    ensures { IfOk result (λ r. reading_seen r ≡ projected_request client.now server.now
        (views args.now)) }
{
    match client.counterpart(server) {
        Some(target) => project_called(alloc, client, &target, args),
        None => Ok(Reading::Transport(UNKNOWN_TRANSACTION)),
    }
}

// The same of the server's method.
fn project_called(
    alloc: Global,
    client: &VersionMethod<'_, '_>,
    target: &VersionMethod<'_, '_>,
    args: &[Value],
) -> Result<Reading, OutOfMemory>
    ensures { IfOk result (λ r. reading_seen r ≡ side_of (called_at client.now target.now
        (views args.now))) }
{
    let ends = Ends {
        sender: client.fields(),
        receiver: target.fields(),
    };
    let wanted = target.declared();
    let sent = client.declared().args.as_slice();
    match project_arguments(alloc, &ends, sent, wanted.args.as_slice(), args)? {
        Some(saw) => Ok(Reading::Called {
            method: target.method(),
            saw,
        }),
        None => Ok(Reading::Transport(BAD_VALUE)),
    }
}
