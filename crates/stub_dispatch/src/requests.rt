//! The request of a call.
ghost use Rattle.std.specs.Prelude.{◌≡◌, ◌+◌, ◌<◌, ◌≤◌, ◌↔◌, ◌^◌, ◌⊎◌, true, length, IfOk, IsErrOf, IsTrue};
ghost use Rattle.aidl_values.specs.View.{view, views};
ghost use Rattle.parcel_words.specs.Written.{with_bytes};
ghost use Rattle.parcel_write.specs.declared.parcel.WriteFault.TheVariants.{TooLarge};
ghost use Rattle.wire_model.specs.Requests.{ArgsFit, ArgumentFits, ArgumentsFit, IsLength, argument_part, argument_parts, asked_length, number_or_0, request, sent_length, spell_length, sum_of_lengths};

use crate::callee::Callee;
use crate::planned_arguments::{PlannedArgument, PlannedArguments};
use crate::request_lengths::request_length;
use crate::token::{descriptor_of, put_token};
use aidl_base::LimitName;
use aidl_schema::{Direction, is_array};
use aidl_values::Value;
use parcel_words::WordWriter;
use parcel_write::WriteFault;
use std::alloc::Global;

/// The bytes of the request of a call: the token of the interface, and the parts of the arguments in order. It refuses by `TooLarge`
/// exactly a request of more than 1,048,576 bytes. The room for the bytes is taken once.
pub fn request(alloc: Global, callee: &Callee<'_>, args: &[Value]) -> Result<Vec<u8>, WriteFault>
    requires { ArgsFit callee.now (views args.now) }
    // What is written is the request.
    ensures sent { IfOk result (λ bytes. bytes.items ≡ request callee.now (views args.now)) }
    // Too large are requests of more than 1,048,576 bytes, and no others.
    ensures too_large { IsErrOf result TooLarge ↔ 1048576
        < length (request callee.now (views args.now)) }
{
    let most = LimitName::ParcelBytes.number() as usize;
    let length = request_length(callee, args, most + 1);
    if length > most {
        return Err(WriteFault::TooLarge);
    }
    let name = descriptor_of(alloc, callee.schema(), callee.interface())?;
    let mut to = WordWriter::with_room(alloc, length)?;
    put_token(&name, &mut to);
    put_parts(&callee.arguments(), args, &mut to);
    Ok(to.finish())
}

// Appends the arguments' parts from one on.
#[tactic(auto, using(crate::proofs::lemmas::Parts::parts_count, parcel_words::proofs::lemmas::Appends::with_more, parcel_words::proofs::lemmas::Appends::with_none))]
fn put_parts(args: &PlannedArguments<'_>, values: &[Value], to: &mut WordWriter)
    requires fit { ArgumentsFit args.now.decls args.now.args (views values.now) }
    requires few { sum_of_lengths args.now.args (views values.now) ≤ 65536 }
    requires small { length
        (argument_parts args.now.decls args.now.args (views values.now)) < 2 ^ 31 }
    requires room { length (argument_parts args.now.decls args.now.args (views values.now))
        ≤ to.old.room }
    ensures { to.new
        ≡ with_bytes to.old (argument_parts args.now.decls args.now.args (views values.now)) }
{
    match args.first() {
        None => {}
        Some((arg, others)) => match values {
            [] => {}
            [value, values @ ..] => {
                put_part(&arg, value, to);
                put_parts(&others, values, to);
            }
        },
    }
}

// Appends an argument's part.
fn put_part(of: &PlannedArgument<'_>, value: &Value, to: &mut WordWriter)
    requires fits { ArgumentFits of.now.decls of.now.arg (view value.now) }
    requires few { asked_length of.now.arg (view value.now) ≤ 65536 }
    requires small { length (argument_part of.now.decls of.now.arg (view value.now)) < 2 ^ 31 }
    requires room { length (argument_part of.now.decls of.now.arg (view value.now)) ≤ to.old.room }
    ensures { to.new ≡ with_bytes to.old (argument_part of.now.decls of.now.arg (view value.now)) }
{
    let arg = of.declared();
    match arg.way {
        Direction::In | Direction::InOut => of.ty().put(value, to),
        Direction::Out => {
            if is_array(arg.ty.shape) {
                put_length(value, to);
            }
        }
    }
}

// Appends the length of an `out` array, or the word -1 for null.
fn put_length(value: &Value, to: &mut WordWriter)
    requires few { number_or_0 (sent_length (view value.now)) ≤ 65536 }
    requires room { 4 ≤ to.old.room }
    ensures { to.new ≡ with_bytes to.old (spell_length (sent_length (view value.now))) }
{
    match value {
        Value::Number(n) if *n >= 0 => to.word(*n as i32),
        Value::Null
        | Value::Truth(_)
        | Value::Number(_)
        | Value::Text(_)
        | Value::Seq(_)
        | Value::Rec(_)
        | Value::Alt(_, _) => to.word(-1),
    }
}
