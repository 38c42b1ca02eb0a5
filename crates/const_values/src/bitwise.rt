//! The bitwise operators `& | ^ ~`.
ghost use Rattle.std.specs.Prelude.{◌≡◌, IsTrue};
ghost use Rattle.std.specs.Int.{w32, w64};
ghost use Rattle.const_values.specs.Bitwise as meant;
ghost use Rattle.const_values.specs.Operands.{IsWithin};
ghost use Rattle.const_values.specs.Seen.{seen};
ghost use Rattle.const_values.specs.Widths.{is_within};
ghost use Rattle.const_values.specs.declared.width.Width.TheVariants.{Narrow};

use crate::operand::Operand;
use crate::operator::Bitwise;
use crate::width::Width;

// `& | ^` on the bits of two numbers of a width.
pub fn bitwise_of<'a>(operator: Bitwise, width: Width, a: i64, b: i64) -> Operand<'a>
    requires left { IsTrue (is_within width a) }
    requires right { IsTrue (is_within width b) }
    ensures value { seen result ≡ meant.bitwise_of operator width a b }
    ensures within { IsWithin (seen result) }
{
    let value = match width {
        Width::Narrow => i64::from(of_narrow(operator, as_narrow(a), as_narrow(b))),
        Width::Wide => of_wide(operator, a, b),
    };
    Operand::Number { width, value }
}

// `~` on the bits of a number of a width.
pub fn complement<'a>(width: Width, value: i64) -> Operand<'a>
    requires { IsTrue (is_within width value) }
    ensures value { seen result ≡ meant.complement width value }
    ensures within { IsWithin (seen result) }
{
    let value = match width {
        Width::Narrow => i64::from(!as_narrow(value)),
        Width::Wide => !value,
    };
    Operand::Number { width, value }
}

// A narrow number in 32 bits.
pub fn as_narrow(value: i64) -> i32
    requires { IsTrue (is_within Narrow value) }
    ensures { result ≡ value }
{
    value as i32
}

fn of_narrow(operator: Bitwise, a: i32, b: i32) -> i32
    ensures { result ≡ meant.on_bits operator w32 a b }
{
    match operator {
        Bitwise::And => a & b,
        Bitwise::Or => a | b,
        Bitwise::ExclusiveOr => a ^ b,
    }
}

fn of_wide(operator: Bitwise, a: i64, b: i64) -> i64
    ensures { result ≡ meant.on_bits operator w64 a b }
{
    match operator {
        Bitwise::And => a & b,
        Bitwise::Or => a | b,
        Bitwise::ExclusiveOr => a ^ b,
    }
}
