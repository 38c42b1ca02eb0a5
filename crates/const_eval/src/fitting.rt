//! Operands as values of a wanted type that can be operands again.
ghost use Rattle.std.specs.Prelude.{◌≡◌, ◌<◌, ◌^◌, IfOk, IsTrue};
ghost use Rattle.const_values.specs.Seen.{Answers, seen};
ghost use Rattle.const_values.specs.Wanted as meant;
ghost use Rattle.const_eval.specs.Held.{is_held};

use aidl_base::Const;
use const_values::{EvalFault, Operand, Wanted, fit};
use std::alloc::Global;

/// The value of the wanted type that an operand is, which can stand in an expression again.
pub fn fit_value(
    alloc: Global,
    wanted: Wanted,
    named: Option<u32>,
    operand: Operand<'_>,
) -> Result<Const, EvalFault>
    ensures value { Answers (λ c. c) result (meant.fitted wanted named (seen operand.entry)) }
    ensures held { IfOk result (λ c. IsTrue (is_held wanted c)) }
{
    fit(alloc, wanted, named, operand)
}
