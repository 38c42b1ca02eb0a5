//! Wanted types, and the conversion of operands to values of them.
ghost use Rattle.std.specs.Prelude.{◌≡◌};
ghost use Rattle.const_values.specs.Seen.{Answers, seen, words_of};
ghost use Rattle.const_values.specs.Wanted as meant;

use crate::fault::{ConstFault, EvalFault};
use crate::operand::{Operand, Words};
use aidl_base::{Const, Range};
use std::alloc::Global;

/// The type that is wanted of an expression. That of an enumerator is its enum's backing. `Enum` has the number of a
/// declaration, and `Nothing` takes no value.
#[derive(Clone, Copy)]
pub enum Wanted {
    Boolean,
    Character,
    Byte,
    Int,
    Long,
    Text,
    Enum(u32),
    Nothing,
}

/// The value of a wanted type that an operand is (own). `named` is the number of the enum of whose enumerator the
/// expression is the name, without parentheses, where it is one. It takes memory for a text alone.
pub fn fit(
    alloc: Global,
    wanted: Wanted,
    named: Option<u32>,
    operand: Operand<'_>,
) -> Result<Const, EvalFault>
    ensures { Answers (λ c. c) result (meant.fitted wanted named (seen operand.entry)) }
{
    match operand {
        Operand::Truth(b) => Ok(truth_for(wanted, b)?),
        Operand::Number { width: _, value } => Ok(number_for(wanted, named, value)?),
        Operand::Character(code) => Ok(character_for(wanted, code)?),
        Operand::Text(words) => text_for(alloc, wanted, words),
    }
}

fn truth_for(wanted: Wanted, b: bool) -> Result<Const, ConstFault>
    ensures { result ≡ meant.truth_for wanted b }
{
    match wanted {
        Wanted::Boolean => Ok(Const::Truth(b)),
        _ => Err(ConstFault::Mismatch),
    }
}

fn number_for(wanted: Wanted, named: Option<u32>, value: i64) -> Result<Const, ConstFault>
    ensures { result ≡ meant.number_for wanted named value }
{
    match wanted {
        Wanted::Byte => in_range(Range::Byte, value),
        Wanted::Int => in_range(Range::Int, value),
        Wanted::Long => in_range(Range::Long, value),
        Wanted::Enum(number) if named == Some(number) => Ok(Const::Number(value)),
        _ => Err(ConstFault::Mismatch),
    }
}

fn in_range(range: Range, value: i64) -> Result<Const, ConstFault>
    ensures { result ≡ meant.in_range range value }
{
    if range.has(value) {
        Ok(Const::Number(value))
    } else {
        Err(ConstFault::DoesNotFit)
    }
}

fn character_for(wanted: Wanted, code: u32) -> Result<Const, ConstFault>
    ensures { result ≡ meant.character_for wanted code }
{
    match wanted {
        Wanted::Character => Ok(Const::Number(i64::from(code))),
        _ => Err(ConstFault::Mismatch),
    }
}

fn text_for(alloc: Global, wanted: Wanted, words: Words<'_>) -> Result<Const, EvalFault>
    ensures { Answers (λ c. c) result (meant.text_for wanted (words_of words.entry)) }
{
    match wanted {
        Wanted::Text => Ok(Const::Text(words.into_text(alloc)?)),
        _ => Err(EvalFault::Fault(ConstFault::Mismatch)),
    }
}
