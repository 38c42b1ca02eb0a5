//! The concatenation of texts by `+`.
ghost use Rattle.std.specs.Prelude.{◌≡◌, ◌++◌, IfOk};
ghost use Rattle.const_values.specs.Operands.{IsWithin};
ghost use Rattle.const_values.specs.Seen.{Gives, seen};
ghost use Rattle.const_values.specs.Texts.{joined};

use crate::fault::{ConstFault, EvalFault};
use crate::operand::{Operand, Words};
use aidl_base::{OutOfMemory, Text};
use std::alloc::Global;

// Two texts as one, of at most 4,096 characters.
pub fn join<'a>(alloc: Global, left: &Text, right: &Text) -> Result<Operand<'a>, EvalFault>
    ensures value { Gives result (joined left.now right.now) }
    ensures within { IfOk result (λ value. IsWithin (seen value)) }
{
    if left.char_count().saturating_add(right.char_count()) <= 4096 {
        Ok(Operand::Text(Words::Joined(both(alloc, left, right)?)))
    } else {
        Err(EvalFault::Fault(ConstFault::Overflow))
    }
}

fn both(alloc: Global, left: &Text, right: &Text) -> Result<Text, OutOfMemory>
    ensures { IfOk result (λ text. text ≡ left.now ++ right.now) }
{
    let mut text = String::from_str(alloc, left.as_str())?;
    text.push_str(right.as_str())?;
    Ok(Text::from_string(text))
}
