//! Whether arguments fit a method, and whether an answer is one of a method.
ghost use Rattle.std.specs.Prelude.{◌≡◌, ◌↔◌, false, min, IsTrue};
ghost use Rattle.aidl_values.specs.Data.{null};
ghost use Rattle.aidl_values.specs.Fits.{Fits};
ghost use Rattle.aidl_values.specs.View.{view, views};
ghost use Rattle.wire_model.specs.Calls.{answer_of, is_oneway, optional_view, outs_of};
ghost use Rattle.wire_model.specs.Requests.{ArgsFit, ArgumentFits, ArgumentsFit, EachFits, ExceptionFits, IsAnswer, IsLength, ResultFits, asked_length, sum_of_lengths};

use crate::version_method::VersionMethod;
use aidl_base::Text;
use aidl_schema::{AidlType, Arg, Schema, is_array};
use aidl_values::{Answer, Value, depth, has_type};
use stub_dispatch::{MOST_ITEMS, SERVICE_SPECIFIC, comes_back, is_out};

// The greatest depth of a value.
const MOST_LEVELS: usize = 64;

/// Whether arguments fit a method.
pub fn args_fit(client: &VersionMethod<'_, '_>, values: &[Value]) -> bool
    ensures { IsTrue result ↔ ArgsFit client.now (views values.now) }
{
    let args = client.declared().args.as_slice();
    if !arguments_fit(client.schema(), args, values) {
        return false;
    }
    sum_of_lengths(args, values) <= MOST_ITEMS
}

// The same of arguments from one on, without the sum of the lengths.
#[tactic(auto, using(crate::proofs::Tests::never, crate::proofs::Tests::always, crate::proofs::Tests::first_fails, crate::proofs::Tests::second))]
fn arguments_fit(schema: &Schema, args: &[Arg], values: &[Value]) -> bool
    ensures { IsTrue result ↔ ArgumentsFit schema.now.decls args.now (views values.now) }
{
    match args {
        [] => match values {
            [] => true,
            [_value, _values @ ..] => false,
        },
        [arg, args @ ..] => match values {
            [] => false,
            [value, values @ ..] => {
                if !argument_fits(schema, arg, value) {
                    return false;
                }
                arguments_fit(schema, args, values)
            }
        },
    }
}

// A value for an `in` or `inout` argument, a length for an `out` array, and null for any other `out` one.
fn argument_fits(schema: &Schema, arg: &Arg, value: &Value) -> bool
    ensures { IsTrue result ↔ ArgumentFits schema.now.decls arg.now (view value.now) }
{
    if !is_out(arg.way) {
        return fits(schema, arg.ty, value);
    }
    if is_array(arg.ty.shape) {
        is_length(arg.ty, value)
    } else {
        is_null(value)
    }
}

// A length, or null where the array may be null.
fn is_length(ty: AidlType, value: &Value) -> bool
    ensures { IsTrue result ↔ IsLength ty (view value.now) }
{
    match value {
        Value::Null => ty.nullable,
        Value::Number(n) => *n >= 0,
        Value::Truth(_) => false,
        Value::Text(_) => false,
        Value::Seq(_) => false,
        Value::Rec(_) => false,
        Value::Alt(_, _) => false,
    }
}

fn is_null(value: &Value) -> bool
    ensures { IsTrue result ↔ (view value.now ≡ null) }
{
    match value {
        Value::Null => true,
        Value::Number(_) => false,
        Value::Truth(_) => false,
        Value::Text(_) => false,
        Value::Seq(_) => false,
        Value::Rec(_) => false,
        Value::Alt(_, _) => false,
    }
}

// Whether a value has a type, and at most 64 levels.
fn fits(schema: &Schema, ty: AidlType, value: &Value) -> bool
    ensures { IsTrue result ↔ Fits schema.now.decls ty (view value.now) }
{
    if !has_type(schema, &ty, value) {
        return false;
    }
    depth(value) <= MOST_LEVELS
}

// The sum of the lengths that arguments ask for, or `usize::MAX` where it is more.
fn sum_of_lengths(args: &[Arg], values: &[Value]) -> usize
    ensures { result ≡ min (sum_of_lengths args.now (views values.now)) usize.MAX }
{
    match args {
        [] => 0,
        [arg, args @ ..] => match values {
            [] => 0,
            [value, values @ ..] => {
                let rest = sum_of_lengths(args, values);
                asked_length(arg, value).saturating_add(rest)
            }
        },
    }
}

// The length that an argument asks for.
fn asked_length(arg: &Arg, value: &Value) -> usize
    ensures { result ≡ asked_length arg.now (view value.now) }
{
    match value {
        Value::Number(n) if is_out(arg.way) && *n >= 0 => *n as usize,
        Value::Null
        | Value::Truth(_)
        | Value::Number(_)
        | Value::Text(_)
        | Value::Seq(_)
        | Value::Rec(_)
        | Value::Alt(_, _) => 0,
    }
}

/// Whether an answer is one of a two-way method.
#[tactic(auto, using(crate::proofs::Tests::one_way, crate::proofs::Tests::two_way))]
pub fn is_two_way_answer(server: &VersionMethod<'_, '_>, answer: &Answer) -> bool
    ensures { IsTrue result ↔ ((is_oneway server.now ≡ false)
        × IsAnswer server.now (answer_of answer.now)) }
{
    if server.declared().oneway {
        return false;
    }
    is_answer(server, answer)
}

// Whether an answer has the result and the outs of a method, or is an exception.
#[tactic(auto, using(crate::proofs::Tests::first_fails, crate::proofs::Tests::second))]
fn is_answer(server: &VersionMethod<'_, '_>, answer: &Answer) -> bool
    ensures { IsTrue result ↔ IsAnswer server.now (answer_of answer.now) }
{
    match answer {
        Answer::Returned { result, outs } => {
            let method = server.declared();
            if !result_fits(server.schema(), method.result, result) {
                return false;
            }
            outs_fit(server.schema(), method.args.as_slice(), outs.as_slice())
        }
        Answer::Exception {
            code,
            message,
            error,
        } => exception_fits(*code, message, *error),
    }
}

// A value exactly where the method isn't void.
#[tactic(auto, using(crate::proofs::Tests::never, crate::proofs::Tests::always))]
fn result_fits(schema: &Schema, ty: Option<AidlType>, value: &Option<Value>) -> bool
    ensures { IsTrue result ↔ ResultFits schema.now.decls ty (optional_view value.now) }
{
    match ty {
        Some(ty) => match value {
            Some(value) => fits(schema, ty, value),
            None => false,
        },
        None => match value {
            Some(_value) => false,
            None => true,
        },
    }
}

// One value for each argument that comes back.
#[tactic(auto, using(crate::proofs::Tests::never, crate::proofs::Tests::always, crate::proofs::Tests::first_fails, crate::proofs::Tests::second))]
fn outs_fit(schema: &Schema, args: &[Arg], values: &[Value]) -> bool
    ensures { IsTrue result ↔ EachFits schema.now.decls (outs_of args.now) (views values.now) }
{
    match args {
        [] => match values {
            [] => true,
            [_value, _values @ ..] => false,
        },
        [arg, args @ ..] => {
            if !comes_back(arg.way) {
                return outs_fit(schema, args, values);
            }
            match values {
                [] => false,
                [value, values @ ..] => {
                    if !fits(schema, arg.ty, value) {
                        return false;
                    }
                    outs_fit(schema, args, values)
                }
            }
        }
    }
}

// A code from -8 to -1, and an error number that is 0 unless the code is -8.
fn exception_fits(code: i32, message: &Text, error: i32) -> bool
    ensures { IsTrue result ↔ ExceptionFits code message.now error }
{
    let _scalars = message.as_str();
    -8 <= code && code <= -1 && (code == SERVICE_SPECIFIC || error == 0)
}
