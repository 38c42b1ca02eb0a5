//! The length of a request.
ghost use Rattle.std.specs.Prelude.{◌≡◌, length, min};
ghost use Rattle.aidl_values.specs.View.{view, views};
ghost use Rattle.wire_model.specs.Calls.{arguments};
ghost use Rattle.wire_model.specs.Requests.{ArgumentFits, ArgumentsFit, argument_part, argument_parts, request};

use crate::callee::Callee;
use crate::planned_arguments::{PlannedArgument, PlannedArguments};
use crate::token::token_length;
use aidl_schema::{Direction, is_array};
use aidl_values::Value;

/// The number of bytes of a request, or `most` where they are more: counting stops there.
pub fn request_length(callee: &Callee<'_>, args: &[Value], most: usize) -> usize
    requires { ArgumentsFit callee.now.declarations (arguments callee.now) (views args.now) }
    ensures { result ≡ min (length (request callee.now (views args.now))) most }
{
    let parts = parts_length(&callee.arguments(), args, most);
    token_length(callee.schema(), callee.interface())
        .saturating_add(parts)
        .min(most)
}

// Of the arguments' parts from one on.
#[tactic(auto, using(crate::proofs::lemmas::Parts::parts_count))]
fn parts_length(args: &PlannedArguments<'_>, values: &[Value], most: usize) -> usize
    requires { ArgumentsFit args.now.decls args.now.args (views values.now) }
    ensures { result ≡ min
        (length (argument_parts args.now.decls args.now.args (views values.now))) most }
{
    match args.first() {
        None => 0,
        Some((arg, others)) => match values {
            [] => 0,
            [value, values @ ..] => {
                let len = part_length(&arg, value, most);
                len + parts_length(&others, values, most - len)
            }
        },
    }
}

// Of an argument's part: its spelling, the length of an `out` array, or nothing.
fn part_length(of: &PlannedArgument<'_>, value: &Value, most: usize) -> usize
    requires { ArgumentFits of.now.decls of.now.arg (view value.now) }
    ensures { result ≡ min
        (length (argument_part of.now.decls of.now.arg (view value.now))) most }
{
    let arg = of.declared();
    match arg.way {
        Direction::In | Direction::InOut => of.ty().length(value, most),
        Direction::Out => {
            if is_array(arg.ty.shape) {
                most.min(4)
            } else {
                0
            }
        }
    }
}
