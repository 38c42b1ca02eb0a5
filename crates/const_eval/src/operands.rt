//! Values of constants and enumerators as operands of other expressions.
ghost use Rattle.std.specs.Prelude.{◌≡◌, IfOk, IsTrue};
ghost use Rattle.const_values.specs.Operands as operand;
ghost use Rattle.const_values.specs.Operands.{IsWithin};
ghost use Rattle.const_values.specs.Seen.{answer, seen};
ghost use Rattle.const_eval.specs.Held.{is_held, is_held_number};
ghost use Rattle.const_eval.specs.Outcomes as meant;
ghost use Rattle.const_values.specs.declared.wanted.Wanted.TheVariants as wanted;

use aidl_base::Const;
use const_values::{ConstFault, Operand, Wanted, Width, Words};

/// What the value of a constant or enumerator is in an expression, by the value that was wanted of it. A text is borrowed.
pub fn operand_of(wanted: Wanted, value: &Const) -> Result<Operand<'_>, ConstFault>
    requires { IsTrue (is_held wanted value.now) }
    ensures value { answer result ≡ meant.operand_of wanted value.now }
    ensures within { IfOk result (λ operand. IsWithin (seen operand)) }
{
    match value {
        Const::Truth(b) => Ok(Operand::Truth(*b)),
        Const::Number(z) => of_number(wanted, *z),
        Const::Text(text) => Ok(Operand::Text(Words::Borrowed(text))),
        Const::Members(_) => Err(ConstFault::Mismatch),
    }
}

fn of_number<'a>(wanted: Wanted, value: i64) -> Result<Operand<'a>, ConstFault>
    requires { IsTrue (is_held_number wanted value) }
    ensures value { answer result ≡ meant.of_number wanted value }
    ensures within { IfOk result (λ operand. IsWithin (seen operand)) }
{
    match wanted {
        Wanted::Byte => Ok(number(Width::Narrow, value)),
        Wanted::Int => Ok(number(Width::Narrow, value)),
        Wanted::Long => Ok(number(Width::Wide, value)),
        Wanted::Character => of_code(value),
        _ => Err(ConstFault::Mismatch),
    }
}

/// A number of a width.
pub fn number<'a>(width: Width, value: i64) -> Operand<'a>
    ensures { seen result ≡ operand.number width value }
{
    Operand::Number { width, value }
}

fn of_code<'a>(value: i64) -> Result<Operand<'a>, ConstFault>
    requires { IsTrue (is_held_number wanted.Character value) }
    ensures value { answer result ≡ meant.of_code value }
    ensures within { IfOk result (λ operand. IsWithin (seen operand)) }
{
    match u32::try_from(value) {
        Ok(code) => Ok(Operand::Character(code)),
        Err(_) => Err(ConstFault::Mismatch),
    }
}
