//! The arithmetic operators `+ - * / %`, and the check that a result lies in its width.
ghost use Rattle.std.specs.Prelude.{◌≡◌, ◌≢◌, pos, ◌+ℤ◌, ◌-ℤ◌, ◌*ℤ◌, int_div, IfOk};
ghost use Rattle.const_values.specs.Arithmetic as meant;
ghost use Rattle.const_values.specs.Operands.{IsWithin};
ghost use Rattle.const_values.specs.Seen.{answer, seen};

use crate::fault::ConstFault;
use crate::operand::Operand;
use crate::operator::Arithmetic;
use crate::width::Width;

// `+ - * / %` of two numbers, for a result of a width.
pub fn arithmetic_of<'a>(
    operator: Arithmetic,
    width: Width,
    a: i64,
    b: i64,
) -> Result<Operand<'a>, ConstFault>
    ensures value { answer result ≡ meant.arithmetic_of operator width a b }
    ensures within { IfOk result (λ value. IsWithin (seen value)) }
{
    match operator {
        Arithmetic::Add => in_width(width, sum(a, b)),
        Arithmetic::Subtract => in_width(width, difference(a, b)),
        Arithmetic::Multiply => in_width(width, product(a, b)),
        Arithmetic::Divide if b == 0 => Err(ConstFault::DivideByZero),
        Arithmetic::Divide => in_width(width, quotient(a, b)),
        Arithmetic::Remainder if b == 0 => Err(ConstFault::DivideByZero),
        Arithmetic::Remainder => in_width(width, remainder(a, b)),
    }
}

// A whole number as an operand of a width, where it lies in it.
pub fn in_width<'a>(width: Width, whole: i128) -> Result<Operand<'a>, ConstFault>
    ensures value { answer result ≡ meant.in_width width whole }
    ensures within { IfOk result (λ value. IsWithin (seen value)) }
{
    if width.holds(whole) {
        Ok(Operand::Number {
            width,
            value: whole as i64,
        })
    } else {
        Err(ConstFault::Overflow)
    }
}

fn sum(a: i64, b: i64) -> i128
    ensures { result ≡ a +ℤ b }
{
    a as i128 + b as i128
}

fn difference(a: i64, b: i64) -> i128
    ensures { result ≡ a -ℤ b }
{
    a as i128 - b as i128
}

fn product(a: i64, b: i64) -> i128
    ensures { result ≡ a *ℤ b }
{
    a as i128 * b as i128
}

fn quotient(a: i64, b: i64) -> i128
    requires { b ≢ pos 0 }
    ensures { result ≡ int_div a b }
{
    a as i128 / b as i128
}

fn remainder(a: i64, b: i64) -> i128
    requires { b ≢ pos 0 }
    ensures { result ≡ a -ℤ int_div a b *ℤ b }
{
    a as i128 % b as i128
}
