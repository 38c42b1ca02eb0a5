//! The length of a reply.
ghost use Rattle.std.specs.Prelude.{◌≡◌, ℤ, length, min};
ghost use Rattle.aidl_values.specs.View.{views};
ghost use Rattle.stub_dispatch.specs.Exceptions.{spell_exception};
ghost use Rattle.wire_model.specs.Calls.{answer_of, optional_view, out_types, outs_of, result_type, returned};
ghost use Rattle.wire_model.specs.Requests.{EachFits, IsAnswer, ResultFits, reply, spell_each, spell_result};

use crate::call::comes_back;
use crate::callee::Callee;
use crate::planned_arguments::PlannedArguments;
use crate::status::SERVICE_SPECIFIC;
use aidl_base::Text;
use aidl_values::{Answer, Value};
use parcel_words::Wire;

/// The number of bytes of a reply, or `most` where they are more: counting stops there.
pub fn reply_length(callee: &Callee<'_>, answer: &Answer, most: usize) -> usize
    requires { IsAnswer callee.now (answer_of answer.now) }
    ensures { result ≡ min (length (reply callee.now (answer_of answer.now))) most }
{
    match answer {
        Answer::Returned { result, outs } => returned_length(callee, result, outs.as_slice(), most),
        Answer::Exception {
            code,
            message,
            error: _,
        } => exception_length(*code, message).min(most),
    }
}

/// The same of a result and outs.
#[tactic(auto, using(crate::proofs::lemmas::Parts::returned_count))]
pub fn returned_length(
    callee: &Callee<'_>,
    value: &Option<Value>,
    outs: &[Value],
    most: usize,
) -> usize
    requires value { ResultFits callee.now.declarations (result_type callee.now)
        (optional_view value.now) }
    requires outs { EachFits callee.now.declarations (out_types callee.now) (views outs.now) }
    ensures { result ≡ min (length (reply callee.now (returned (optional_view value.now)
        (views outs.now)))) most }
{
    let len = result_length(callee, value, most);
    let rest = outs_length(&callee.arguments(), outs, most - len);
    (len + rest).saturating_add(4).min(most)
}

// The number of bytes of a result, or `most` where they are more; 0 of a void method.
fn result_length(callee: &Callee<'_>, value: &Option<Value>, most: usize) -> usize
    requires { ResultFits callee.now.declarations (result_type callee.now)
        (optional_view value.now) }
    ensures { result ≡ min (length (spell_result callee.now.declarations (result_type callee.now)
        (optional_view value.now))) most }
{
    match value {
        Some(value) => match callee.result() {
            Some(ty) => ty.length(value, most),
            None => 0,
        },
        None => 0,
    }
}

// The number of bytes of the outs of the arguments from one on, or `most` where they are more.
#[tactic(auto, using(crate::proofs::lemmas::Parts::each_count))]
fn outs_length(args: &PlannedArguments<'_>, values: &[Value], most: usize) -> usize
    requires { EachFits args.now.decls (outs_of args.now.args) (views values.now) }
    ensures { result ≡ min
        (length (spell_each args.now.decls (outs_of args.now.args) (views values.now))) most }
{
    match args.first() {
        None => 0,
        Some((arg, others)) => {
            if !comes_back(arg.declared().way) {
                return outs_length(&others, values, most);
            }
            match values {
                [] => 0,
                [value, values @ ..] => {
                    let len = arg.ty().length(value, most);
                    len + outs_length(&others, values, most - len)
                }
            }
        }
    }
}

/// The number of bytes of the reply of an exception, or `usize::MAX` where they are more.
#[tactic(auto, using(crate::proofs::lemmas::Parts::exception_count))]
pub fn exception_length(code: i32, message: &Text) -> usize
    ensures { (error : ℤ) → result
        ≡ min (length (spell_exception code message.now error)) usize.MAX }
{
    if code == SERVICE_SPECIFIC {
        return message.length().saturating_add(12);
    }
    message.length().saturating_add(8)
}
