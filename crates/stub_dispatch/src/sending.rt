//! The bytes of a stub's reply.
ghost use Rattle.std.specs.Prelude.{◌≡◌, ◌<◌, ◌≤◌, ◌^◌, codes, length, negsuc, pos, IfOk};
ghost use Rattle.aidl_schema.specs.Find.{methods_at};
ghost use Rattle.aidl_values.specs.View.{views};
ghost use Rattle.parcel_words.specs.Written.{with_bytes};
ghost use Rattle.stub_dispatch.specs.Sent.{sent_reply, unread};
ghost use Rattle.stub_dispatch.specs.Exceptions.{spell_exception};
ghost use Rattle.wire_model.specs.Calls.{answer_of, is_oneway, optional_view, out_types, outs_of, result_type, returned};
ghost use Rattle.wire_model.specs.MethodOf.{method_of};
ghost use Rattle.wire_model.specs.Requests.{AnswerFits, EachFits, ResultFits, reply, spell_each, spell_error, spell_result};

use crate::call::comes_back;
use crate::callee::Callee;
use crate::planned_arguments::PlannedArguments;
use crate::reply_lengths::{exception_length, returned_length};
use crate::status::{BAD_PARCELABLE, SERVICE_SPECIFIC};
use aidl_base::{OutOfMemory, Row, Text};
use aidl_schema::{Schema, methods_at};
use aidl_values::{Answer, Value};
use parcel_words::{Wire, WordWriter};
use std::alloc::Global;

/// The bytes of the reply of an answer that fits its method, None of a oneway method. The room for the bytes is taken once.
pub fn answer_reply(
    alloc: Global,
    callee: &Callee<'_>,
    answer: &Answer,
) -> Result<Option<Row<u8>>, OutOfMemory>
    requires fits { AnswerFits callee.now (answer_of answer.now) }
    ensures { IfOk result (λ reply. reply ≡ sent_reply callee.now (answer_of answer.now)) }
{
    if is_oneway(callee.schema(), callee.interface(), callee.method()) {
        return Ok(None);
    }
    let bytes = answer_bytes(alloc, callee, answer)?;
    Ok(Some(Row::from_vec(bytes)))
}

/// The bytes of the reply to a request with bytes left over, None of a oneway method.
pub fn unread_reply(
    alloc: Global,
    schema: &Schema,
    interface: u32,
    method: u32,
) -> Result<Option<Row<u8>>, OutOfMemory>
    ensures { IfOk result (λ reply. reply ≡ sent_reply (method_of schema.now.decls interface method)
        unread) }
{
    if is_oneway(schema, interface, method) {
        return Ok(None);
    }
    let bytes = unread_bytes(alloc)?;
    Ok(Some(Row::from_vec(bytes)))
}

/// The bytes of the reply to a request with bytes left over: an exception, the same of every method that isn't oneway.
#[tactic(auto, using(crate::proofs::Unread::unread_small, crate::proofs::Unread::unread_chars))]
pub fn unread_bytes(alloc: Global) -> Result<Vec<u8>, OutOfMemory>
    ensures { IfOk result (λ bytes. bytes.items
        ≡ spell_exception (negsuc 1) (codes "unread argument bytes") (pos 0)) }
{
    let message = Text::from_str(alloc, "unread argument bytes")?;
    exception_bytes(alloc, BAD_PARCELABLE, &message, 0)
}

// Whether a method is oneway.
fn is_oneway(schema: &Schema, interface: u32, method: u32) -> bool
    ensures { result ≡ is_oneway (method_of schema.now.decls interface method) }
{
    match methods_at(schema, interface).get(method as usize) {
        Some(method) => method.oneway,
        None => false,
    }
}

/// The bytes of the reply of an answer that fits its method, whether or not the method is oneway. The room for the bytes is taken once.
pub fn answer_bytes(
    alloc: Global,
    callee: &Callee<'_>,
    answer: &Answer,
) -> Result<Vec<u8>, OutOfMemory>
    requires fits { AnswerFits callee.now (answer_of answer.now) }
    ensures { IfOk result (λ bytes. bytes.items ≡ reply callee.now (answer_of answer.now)) }
{
    match answer {
        Answer::Returned { result, outs } => returned_bytes(alloc, callee, result, outs.as_slice()),
        Answer::Exception {
            code,
            message,
            error,
        } => exception_bytes(alloc, *code, message, *error),
    }
}

// The bytes of the reply of a result and outs.
#[tactic(auto, using(crate::proofs::lemmas::Parts::returned_count, parcel_words::proofs::lemmas::Appends::with_more))]
fn returned_bytes(
    alloc: Global,
    callee: &Callee<'_>,
    value: &Option<Value>,
    outs: &[Value],
) -> Result<Vec<u8>, OutOfMemory>
    requires fits { ResultFits callee.now.declarations (result_type callee.now)
        (optional_view value.now) }
    requires each { EachFits callee.now.declarations (out_types callee.now) (views outs.now) }
    requires small { length (reply callee.now (returned (optional_view value.now) (views outs.now)))
        ≤ 1048576 }
    ensures { IfOk result (λ bytes. bytes.items ≡ reply callee.now
        (returned (optional_view value.now) (views outs.now))) }
{
    let length = returned_length(callee, value, outs, usize::MAX);
    let mut to = WordWriter::with_room(alloc, length)?;
    to.word(0);
    put_result(callee, value, &mut to);
    put_outs(&callee.arguments(), outs, &mut to);
    Ok(to.finish())
}

// Appends a result, where there is one.
fn put_result(callee: &Callee<'_>, value: &Option<Value>, to: &mut WordWriter)
    requires fits { ResultFits callee.now.declarations (result_type callee.now)
        (optional_view value.now) }
    requires small { length (spell_result callee.now.declarations (result_type callee.now)
        (optional_view value.now)) < 2 ^ 31 }
    requires room { length (spell_result callee.now.declarations (result_type callee.now)
        (optional_view value.now)) ≤ to.old.room }
    ensures { to.new ≡ with_bytes to.old (spell_result callee.now.declarations
        (result_type callee.now) (optional_view value.now)) }
{
    match value {
        Some(value) => match callee.result() {
            Some(ty) => ty.put(value, to),
            None => {}
        },
        None => {}
    }
}

// Appends the outs of the arguments from one on.
#[tactic(auto, using(crate::proofs::lemmas::Parts::each_count, parcel_words::proofs::lemmas::Appends::with_more, parcel_words::proofs::lemmas::Appends::with_none))]
fn put_outs(args: &PlannedArguments<'_>, values: &[Value], to: &mut WordWriter)
    requires fit { EachFits args.now.decls (outs_of args.now.args) (views values.now) }
    requires small { length
        (spell_each args.now.decls (outs_of args.now.args) (views values.now)) < 2 ^ 31 }
    requires room { length (spell_each args.now.decls (outs_of args.now.args) (views values.now))
        ≤ to.old.room }
    ensures { to.new
        ≡ with_bytes to.old (spell_each args.now.decls (outs_of args.now.args) (views values.now)) }
{
    match args.first() {
        None => {}
        Some((arg, others)) => {
            if !comes_back(arg.declared().way) {
                return put_outs(&others, values, to);
            }
            match values {
                [] => {}
                [value, values @ ..] => {
                    arg.ty().put(value, to);
                    put_outs(&others, values, to);
                }
            }
        }
    }
}

// The bytes of the reply of an exception. The room for the bytes is taken once.
fn exception_bytes(
    alloc: Global,
    code: i32,
    message: &Text,
    error: i32,
) -> Result<Vec<u8>, OutOfMemory>
    requires { length (spell_exception code message.now error) ≤ 1048576 }
    ensures { IfOk result (λ bytes. bytes.items ≡ spell_exception code message.now error) }
{
    let length = exception_length(code, message);
    let mut to = WordWriter::with_room(alloc, length)?;
    to.word(code);
    message.put(&mut to);
    to.word(0);
    put_error(code, error, &mut to);
    Ok(to.finish())
}

// Appends the error word, where there is one.
#[tactic(auto, using(parcel_words::proofs::lemmas::Appends::with_none))]
fn put_error(code: i32, error: i32, to: &mut WordWriter)
    requires { length (spell_error code error) ≤ to.old.room }
    ensures { to.new ≡ with_bytes to.old (spell_error code error) }
{
    if code == SERVICE_SPECIFIC {
        to.word(error);
    }
}
