//! The shift operators `<< >>`.
ghost use Rattle.std.specs.Prelude.{◌≡◌, ◌<◌, IfOk, IsTrue};
ghost use Rattle.std.specs.Int.{int_shl};
ghost use Rattle.const_values.specs.Operands.{IsWithin};
ghost use Rattle.const_values.specs.Seen.{answer, seen};
ghost use Rattle.const_values.specs.Shifts as meant;
ghost use Rattle.const_values.specs.Widths.{bit_count, form_of, is_within};

use crate::bitwise::as_narrow;
use crate::fault::ConstFault;
use crate::operand::Operand;
use crate::operator::Shift;
use crate::width::Width;

// `<< >>` of a number of a width.
pub fn shift_of<'a>(
    operator: Shift,
    width: Width,
    a: i64,
    places: i64,
) -> Result<Operand<'a>, ConstFault>
    requires { IsTrue (is_within width a) }
    ensures value { answer result ≡ meant.shift_of operator width a places }
    ensures within { IfOk result (λ value. IsWithin (seen value)) }
{
    if 0 <= places && places < i64::from(width.bits()) {
        Ok(shifted(operator, width, a, places as u32))
    } else {
        Err(ConstFault::BadShift)
    }
}

fn shifted<'a>(operator: Shift, width: Width, a: i64, places: u32) -> Operand<'a>
    requires within { IsTrue (is_within width a) }
    requires below { places < bit_count width }
    ensures value { seen result ≡ meant.shifted operator width a places }
    ensures within { IsWithin (seen result) }
{
    let value = match operator {
        Shift::Left => left(width, a, places),
        Shift::Right => a >> places,
    };
    Operand::Number { width, value }
}

fn left(width: Width, a: i64, places: u32) -> i64
    requires within { IsTrue (is_within width a) }
    requires below { places < bit_count width }
    ensures value { result ≡ int_shl (form_of width) a places }
    ensures within { IsTrue (is_within width result) }
{
    match width {
        Width::Narrow => i64::from(as_narrow(a) << places),
        Width::Wide => a << places,
    }
}
