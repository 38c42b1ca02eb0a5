//! Enumerators without an expression: the first of an enum, and one more than the one before.
ghost use Rattle.std.specs.Prelude.{◌≡◌, None, pos, ◌+ℤ◌, IfOk, IsTrue, Err};
ghost use Rattle.aidl_base.specs.declared.constant.Const.{out-Const};
ghost use Rattle.const_values.specs.Operands as operand;
ghost use Rattle.const_values.specs.Seen.{Answers};
ghost use Rattle.const_values.specs.Wanted.{fitted};
ghost use Rattle.const_values.specs.declared.width.Width.TheVariants.{Narrow, Wide};
ghost use Rattle.const_eval.specs.Held.{is_held};
ghost use Rattle.const_eval.specs.Outcomes as meant;
ghost use Rattle.const_eval.specs.Known.{values_in};

use crate::fitting::fit_value;
use crate::operands::number;
use crate::outcome::Outcome;
use aidl_base::Const;
use const_values::{ConstFault, EvalFault, Wanted, Width};
use std::alloc::Global;

/// The value of an enumerator without an expression that is the first of its enum.
pub fn first(alloc: Global, wanted: Wanted) -> Result<Const, EvalFault>
    ensures value { Answers (λ c. c) result (fitted wanted None (operand.number Narrow (pos 0))) }
    ensures held { IfOk result (λ c. IsTrue (is_held wanted c)) }
{
    fit_value(alloc, wanted, None, number(Width::Narrow, 0))
}

/// The value of an enumerator without an expression, by the number of the one before it.
pub fn one_more(
    alloc: Global,
    wanted: Wanted,
    outcomes: &[Outcome],
    before: Option<usize>,
) -> Result<Const, EvalFault>
    ensures value { Answers
        (λ c. c) result (meant.one_more wanted (values_in outcomes.now) before) }
    ensures held { IfOk result (λ c. IsTrue (is_held wanted c)) }
{
    match before {
        None => Err(EvalFault::Fault(ConstFault::UnknownName)),
        Some(n) => above(alloc, wanted, number_at(outcomes, n)),
    }
}

// One more than a value.
fn above(alloc: Global, wanted: Wanted, value: i64) -> Result<Const, EvalFault>
    ensures value { Answers
        (λ c. c) result (fitted wanted None (operand.number Wide (value +ℤ pos 1))) }
    ensures held { IfOk result (λ c. IsTrue (is_held wanted c)) }
{
    match value.checked_add(1) {
        Some(next) => fit_value(alloc, wanted, None, number(Width::Wide, next)),
        None => Err(EvalFault::Fault(beyond(wanted))),
    }
}

// What a number beyond 64 bits is for a wanted type.
fn beyond(wanted: Wanted) -> ConstFault
    ensures { fitted wanted None (operand.number Wide (pos 9223372036854775808)) ≡ Err result }
{
    match wanted {
        Wanted::Byte => ConstFault::DoesNotFit,
        Wanted::Int => ConstFault::DoesNotFit,
        Wanted::Long => ConstFault::DoesNotFit,
        _ => ConstFault::Mismatch,
    }
}

fn number_at(outcomes: &[Outcome], number: usize) -> i64
    ensures { result ≡ meant.number_in (out-Const (values_in outcomes.now number)) }
{
    match outcomes.get(number) {
        Some(Outcome::Given(value)) => number_in(value),
        Some(Outcome::Fault(_)) => 0,
        Some(Outcome::Unjudged) => 0,
        None => 0,
    }
}

fn number_in(value: &Const) -> i64
    ensures { result ≡ meant.number_in (out-Const value.now) }
{
    match value {
        Const::Number(z) => *z,
        Const::Truth(_) => 0,
        Const::Text(_) => 0,
        Const::Members(_) => 0,
    }
}
