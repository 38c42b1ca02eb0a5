//! What a client makes of a reply.
ghost use Rattle.std.specs.Prelude.{◌≡◌, IfOk, OnOk};
ghost use Rattle.aidl_values.specs.View.{views};
ghost use Rattle.parcel_words.specs.Taken.{TakesIfMemory};
ghost use Rattle.stub_dispatch.specs.Got.{got_of};
ghost use Rattle.stub_dispatch.specs.steps.Fronts.{Continues};
ghost use Rattle.stub_dispatch.specs.steps.Replies.{IsAnswer};
ghost use Rattle.wire_model.specs.Calls.{answer_of, optional_view, out_types, outs_of, result_type};
ghost use Rattle.wire_model.specs.Receiver.{client, error_at, exception_at, is_refused_status, result_at, returned_at, status_at, values_at};

use crate::call::comes_back;
use crate::call_reader::CallReader;
use crate::callee::Callee;
use crate::planned_arguments::PlannedArguments;
use crate::status::{
    NOTED_HEADER, PARCELABLE_EXCEPTION, REPLY_HEADER, SERVICE_SPECIFIC, TRANSACTION_FAILED,
};
use aidl_base::{OutOfMemory, Profile, Row, Text};
use aidl_values::{Answer, Value};
use parcel_words::ReadFault;
use std::alloc::Global;

/// What a client makes of a reply. `code` is any exception word but those that are refused, `error` is 0 unless it is -8, and
/// `status` is that of the first wrong item.
pub enum Got {
    Returned {
        result: Option<Value>,
        outs: Row<Value>,
    },
    Exception {
        code: i32,
        message: Text,
        error: i32,
    },
    Failed {
        status: i32,
    },
}

// By hand, so that one who drops it meets one call and not each form.
impl Drop for Got {
    fn drop(self) {
        match self {
            Got::Returned { result: _, outs: _ } => {}
            Got::Exception {
                code: _,
                message: _,
                error: _,
            } => {}
            Got::Failed { status: _ } => {}
        }
    }
}

/// What a client makes of the bytes of a reply of a method, by a profile, whether or not the method is oneway: the answer that they are
/// exactly, or else the status of the first wrong item.
pub fn read_answer(
    alloc: Global,
    profile: Profile,
    callee: &Callee<'_>,
    bytes: &[u8],
) -> Result<Got, OutOfMemory>
    // An answer is what the client reads, and a failure has the status with which reading stops.
    ensures { IfOk result (λ got. got_of got ≡ client profile callee.now bytes.now) }
{
    match answer_in(alloc, profile, callee, bytes) {
        Ok(Answer::Returned { result, outs }) => Ok(Got::Returned { result, outs }),
        Ok(
            Answer::Exception {
                code,
                message,
                error,
            },
        ) => Ok(Got::Exception {
            code,
            message,
            error,
        }),
        Err(fault) => match fault.status() {
            Some(status) => Ok(Got::Failed { status }),
            None => Err(OutOfMemory),
        },
    }
}

// The answer that the bytes are.
#[tactic(auto, unfolding(wire_model::specs::Receiver::client))]
fn answer_in(
    alloc: Global,
    profile: Profile,
    callee: &Callee<'_>,
    bytes: &[u8],
) -> Result<Answer, ReadFault>
    ensures { IsAnswer result (client profile callee.now bytes.now) }
{
    let mut from = CallReader::new(profile, bytes);
    let status = from.word()?;
    let answer = status_from(alloc, callee, status, &mut from)?;
    let rest = from.rest();
    if rest.is_empty() {
        Ok(answer)
    } else {
        Err(ReadFault::BadValue)
    }
}

// The answer after the status word.
fn status_from(
    alloc: Global,
    callee: &Callee<'_>,
    status: i32,
    from: &mut CallReader<'_>,
) -> Result<Answer, ReadFault>
    ensures { TakesIfMemory answer_of result (status_at from.old.profile callee.now.declarations
        (result_type callee.now) (out_types callee.now) status from.old.bytes) from.new.bytes }
{
    if status == 0 {
        return returned_from(alloc, callee, from);
    }
    if is_refused(status) {
        return Err(ReadFault::BadValue);
    }
    exception_from(alloc, status, from)
}

// Whether a status word is that of a parcelable exception, of a header or of a failed transaction.
fn is_refused(status: i32) -> bool
    ensures { result ≡ is_refused_status status }
{
    status == PARCELABLE_EXCEPTION
        || status == NOTED_HEADER
        || status == REPLY_HEADER
        || status == TRANSACTION_FAILED
}

// The rest of an exception.
#[tactic(auto, unfolding(wire_model::specs::Receiver::exception_at))]
fn exception_from(alloc: Global, code: i32, from: &mut CallReader<'_>) -> Result<Answer, ReadFault>
    ensures { TakesIfMemory answer_of result
        (exception_at from.old.profile code from.old.bytes) from.new.bytes }
{
    let message = from.text(alloc)?;
    let size = from.word()?;
    if size != 0 {
        return Err(ReadFault::BadValue);
    }
    let error = error_from(code, from)?;
    Ok(Answer::Exception {
        code,
        message,
        error,
    })
}

// The error word of a service's own exception, and 0 of any other.
fn error_from(code: i32, from: &mut CallReader<'_>) -> Result<i32, ReadFault>
    ensures { TakesIfMemory (λ n. n) result (error_at code from.old.bytes) from.new.bytes }
{
    if code == SERVICE_SPECIFIC {
        from.word()
    } else {
        Ok(0)
    }
}

// The result and the outs of a method.
#[tactic(auto, unfolding(wire_model::specs::Receiver::returned_at))]
fn returned_from(
    alloc: Global,
    callee: &Callee<'_>,
    from: &mut CallReader<'_>,
) -> Result<Answer, ReadFault>
    ensures { TakesIfMemory answer_of result (returned_at from.old.profile callee.now.declarations
        (result_type callee.now) (out_types callee.now) from.old.bytes) from.new.bytes }
{
    let result = result_from(alloc, callee, from)?;
    let mut outs = Vec::new(alloc);
    outs_from(alloc, &callee.arguments(), from, &mut outs)?;
    let outs = Row::from_vec(outs);
    Ok(Answer::Returned { result, outs })
}

// A result, where the method has one.
fn result_from(
    alloc: Global,
    callee: &Callee<'_>,
    from: &mut CallReader<'_>,
) -> Result<Option<Value>, ReadFault>
    ensures taken { TakesIfMemory optional_view result (result_at from.old.profile
        callee.now.declarations (result_type callee.now) from.old.bytes) from.new.bytes }
    ensures same { OnOk result (from.new.profile ≡ from.old.profile) }
{
    match callee.result() {
        Some(ty) => Ok(Some(ty.value_from(alloc, from)?)),
        None => Ok(None),
    }
}

// The outs of the arguments from one on, behind those that were read.
fn outs_from(
    alloc: Global,
    args: &PlannedArguments<'_>,
    from: &mut CallReader<'_>,
    outs: &mut Vec<Value>,
) -> Result<(), ReadFault>
    ensures { Continues (views outs.old.items) (views outs.new.items) result
        (values_at from.old.profile args.now.decls (outs_of args.now.args) from.old.bytes)
        from.new.bytes }
{
    match args.first() {
        None => Ok(()),
        Some((arg, others)) => {
            if !comes_back(arg.declared().way) {
                return outs_from(alloc, &others, from, outs);
            }
            let value = arg.ty().value_from(alloc, from)?;
            outs.push(value)?;
            outs_from(alloc, &others, from, outs)
        }
    }
}
