//! What a stub makes of a request.
ghost use Rattle.std.specs.Prelude.{◌≡◌, ℕ, IfOk, Some};
ghost use Rattle.aidl_schema.specs.Find.{methods_at, position_of_code};
ghost use Rattle.stub_dispatch.specs.Receipts.{receipt_of};
ghost use Rattle.stub_dispatch.specs.steps.Calls.{arguments_received, call_received};
ghost use Rattle.wire_model.specs.Receiver.{stub};

use crate::arguments::arguments_from;
use crate::call_reader::CallReader;
use crate::callee::Callee;
use crate::side::Side;
use crate::status::{BAD_TYPE, UNKNOWN_TRANSACTION};
use crate::token::{begins_with, descriptor_of};
use aidl_base::{OutOfMemory, Profile, Row};
use aidl_schema::method_of_code;
use aidl_values::Value;
use std::alloc::Global;

/// What a stub makes of a request: a status with which it is refused, a method with bytes left over, or a method and what its
/// handler sees.
#[derive(Drop)]
pub enum Receipt {
    Refused { status: i32 },
    Left { method: u32 },
    Called { method: u32, saw: Row<Value> },
}

/// What a stub makes of the bytes of a request with a code: exactly what is received, or the transport status of the refusal that
/// comes first.
#[tactic(auto, unfolding(wire_model::specs::Receiver::stub), using(crate::proofs::Places::place_there))]
pub fn receive(
    alloc: Global,
    profile: Profile,
    side: &Side<'_>,
    interface: u32,
    code: u32,
    bytes: &[u8],
) -> Result<Receipt, OutOfMemory>
    ensures { IfOk result (λ receipt. receipt_of receipt
        ≡ stub profile side.now interface code bytes.now) }
{
    match method_of_code(side.schema(), interface, code) {
        Some(method) => {
            let callee = Callee::new(side, interface, method);
            receive_call(alloc, profile, &callee, bytes)
        }
        None => Ok(Receipt::Refused {
            status: UNKNOWN_TRANSACTION,
        }),
    }
}

/// The same where the code is known to be that of a method: no method is looked for.
pub fn receive_call(
    alloc: Global,
    profile: Profile,
    callee: &Callee<'_>,
    bytes: &[u8],
) -> Result<Receipt, OutOfMemory>
    ensures { IfOk result (λ receipt. (code : ℕ) → position_of_code
        (methods_at callee.now.declarations callee.now.interface) code ≡ Some callee.now.method
        → receipt_of receipt ≡ stub profile callee.now.declarations callee.now.interface code
        bytes.now) }
{
    receive_request(alloc, profile, callee, bytes)
}

// The same behind the code.
fn receive_request(
    alloc: Global,
    profile: Profile,
    callee: &Callee<'_>,
    bytes: &[u8],
) -> Result<Receipt, OutOfMemory>
    ensures { IfOk result (λ receipt. receipt_of receipt ≡ call_received profile callee.now
        bytes.now) }
{
    let name = descriptor_of(alloc, callee.schema(), callee.interface())?;
    let mut from = CallReader::new(profile, bytes);
    if begins_with(alloc, &name, &mut from)? {
        receive_arguments(alloc, callee, &mut from)
    } else {
        Ok(Receipt::Refused { status: BAD_TYPE })
    }
}

// The same after the token.
fn receive_arguments(
    alloc: Global,
    callee: &Callee<'_>,
    from: &mut CallReader<'_>,
) -> Result<Receipt, OutOfMemory>
    ensures { IfOk result (λ receipt. receipt_of receipt ≡ arguments_received from.old.profile
        callee.now from.old.bytes) }
{
    let method = callee.method();
    let args = callee.arguments();
    let mut saw = Vec::new(alloc);
    match arguments_from(alloc, &args, 0, from, &mut saw) {
        Ok(()) => {
            let rest = from.rest();
            if rest.is_empty() {
                let saw = Row::from_vec(saw);
                Ok(Receipt::Called { method, saw })
            } else {
                Ok(Receipt::Left { method })
            }
        }
        Err(fault) => match fault.status() {
            Some(status) => Ok(Receipt::Refused { status }),
            None => Err(OutOfMemory),
        },
    }
}
