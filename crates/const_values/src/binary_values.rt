//! Binary operators on numbers, truth values and texts.
ghost use Rattle.std.specs.Prelude.{◌≡◌, IfOk, IsTrue};
ghost use Rattle.const_values.specs.Binary as meant;
ghost use Rattle.const_values.specs.Operands.{IsWithin};
ghost use Rattle.const_values.specs.Seen.{Gives, answer, seen};
ghost use Rattle.const_values.specs.Widths.{is_within};

use crate::arithmetic::arithmetic_of;
use crate::bitwise::bitwise_of;
use crate::compare::{connective_of, equality_of, order_of};
use crate::fault::{ConstFault, EvalFault, without_memory};
use crate::join::join;
use crate::operand::Operand;
use crate::operator::{Arithmetic, BinaryOperator};
use crate::shift::shift_of;
use crate::width::Width;
use aidl_base::Text;
use std::alloc::Global;

/// What an operator makes of the operands around it (own). It takes memory for two texts alone.
pub fn binary<'a>(
    alloc: Global,
    operator: BinaryOperator,
    left: &Operand<'_>,
    right: &Operand<'_>,
) -> Result<Operand<'a>, EvalFault>
    requires left_within { IsWithin (seen left.now) }
    requires right_within { IsWithin (seen right.now) }
    ensures value { Gives result (meant.value_of operator (seen left.now) (seen right.now)) }
    ensures within { IfOk result (λ value. IsWithin (seen value)) }
{
    match (left, right) {
        (
            Operand::Number { width, value },
            Operand::Number {
                width: other,
                value: b,
            },
        ) => { without_memory(of_numbers(operator, *width, *value, *other, *b)) }
        (Operand::Truth(a), Operand::Truth(b)) => without_memory(of_truths(operator, *a, *b)),
        (Operand::Text(a), Operand::Text(b)) => {
            of_texts(alloc, operator, a.as_text(), b.as_text())
        }
        _ => Err(EvalFault::Fault(ConstFault::Mismatch)),
    }
}

// Of two numbers.
fn of_numbers<'a>(
    operator: BinaryOperator,
    left: Width,
    a: i64,
    right: Width,
    b: i64,
) -> Result<Operand<'a>, ConstFault>
    requires left_within { IsTrue (is_within left a) }
    requires right_within { IsTrue (is_within right b) }
    ensures value { answer result ≡ meant.of_numbers operator left a right b }
    ensures within { IfOk result (λ value. IsWithin (seen value)) }
{
    let width = left.or_wider(right);
    match operator {
        BinaryOperator::Arithmetic(operator) => arithmetic_of(operator, width, a, b),
        BinaryOperator::Bitwise(operator) => Ok(bitwise_of(operator, width, a, b)),
        BinaryOperator::Shift(operator) => shift_of(operator, left, a, b),
        BinaryOperator::Order(operator) => Ok(Operand::Truth(order_of(operator, a, b))),
        BinaryOperator::Equality(operator) => Ok(Operand::Truth(equality_of(operator, a == b))),
        BinaryOperator::Connective(_) => Err(ConstFault::Mismatch),
    }
}

// Of two truth values.
fn of_truths<'a>(operator: BinaryOperator, a: bool, b: bool) -> Result<Operand<'a>, ConstFault>
    ensures value { answer result ≡ meant.of_truths operator a b }
    ensures within { IfOk result (λ value. IsWithin (seen value)) }
{
    match operator {
        BinaryOperator::Equality(operator) => Ok(Operand::Truth(equality_of(operator, a == b))),
        BinaryOperator::Connective(operator) => Ok(Operand::Truth(connective_of(operator, a, b))),
        _ => Err(ConstFault::Mismatch),
    }
}

fn of_texts<'a>(
    alloc: Global,
    operator: BinaryOperator,
    a: &Text,
    b: &Text,
) -> Result<Operand<'a>, EvalFault>
    ensures value { Gives result (meant.of_texts operator a.now b.now) }
    ensures within { IfOk result (λ value. IsWithin (seen value)) }
{
    match operator {
        BinaryOperator::Arithmetic(Arithmetic::Add) => join(alloc, a, b),
        _ => Err(EvalFault::Fault(ConstFault::Mismatch)),
    }
}
