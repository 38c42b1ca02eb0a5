//! Unary operators on numbers and truth values.
ghost use Rattle.std.specs.Prelude.{◌≡◌, IfOk, IsTrue};
ghost use Rattle.const_values.specs.Operands.{IsWithin};
ghost use Rattle.const_values.specs.Seen.{answer, seen};
ghost use Rattle.const_values.specs.Unary as meant;
ghost use Rattle.const_values.specs.Widths.{is_within};

use crate::arithmetic::in_width;
use crate::bitwise::complement;
use crate::fault::ConstFault;
use crate::operand::Operand;
use crate::operator::UnaryOperator;
use crate::width::Width;

/// What an operator makes of the operand after it (own).
pub fn unary<'a>(operator: UnaryOperator, operand: &Operand<'_>) -> Result<Operand<'a>, ConstFault>
    requires { IsWithin (seen operand.now) }
    ensures value { answer result ≡ meant.value_of operator (seen operand.now) }
    ensures within { IfOk result (λ value. IsWithin (seen value)) }
{
    match operand {
        Operand::Number { width, value } => of_number(operator, *width, *value),
        Operand::Truth(b) => of_truth(operator, *b),
        _ => Err(ConstFault::Mismatch),
    }
}

fn of_number<'a>(
    operator: UnaryOperator,
    width: Width,
    value: i64,
) -> Result<Operand<'a>, ConstFault>
    requires { IsTrue (is_within width value) }
    ensures value { answer result ≡ meant.of_number operator width value }
    ensures within { IfOk result (λ value. IsWithin (seen value)) }
{
    match operator {
        UnaryOperator::Plus => Ok(Operand::Number { width, value }),
        UnaryOperator::Minus => in_width(width, -(value as i128)),
        UnaryOperator::Complement => Ok(complement(width, value)),
        UnaryOperator::Not => Err(ConstFault::Mismatch),
    }
}

fn of_truth<'a>(operator: UnaryOperator, b: bool) -> Result<Operand<'a>, ConstFault>
    ensures value { answer result ≡ meant.of_truth operator b }
    ensures within { IfOk result (λ value. IsWithin (seen value)) }
{
    match operator {
        UnaryOperator::Not => Ok(Operand::Truth(!b)),
        _ => Err(ConstFault::Mismatch),
    }
}
