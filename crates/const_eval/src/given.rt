//! Which items have a value already, among outcomes that are still being found.
ghost use Rattle.std.specs.Prelude.{◌≡◌, ℕ, IfOk, vec_len};
ghost use Rattle.const_eval.specs.declared.outcome.Outcome.TheVariants.{Unjudged};
ghost use Rattle.const_eval.specs.Outcomes.{is_given, outcome_at};
ghost use Rattle.const_eval.specs.Known.{are_given};

use crate::outcome::Outcome;
use aidl_base::OutOfMemory;
use std::alloc::Global;

/// As many outcomes, each `Unjudged` as long as nothing is known.
pub fn none_known(alloc: Global, count: usize) -> Result<Vec<Outcome>, OutOfMemory>
    ensures len { IfOk result (λ outcomes. vec_len outcomes ≡ count) }
    ensures none { IfOk result (λ outcomes. (n : ℕ) → outcome_at outcomes.items n ≡ Unjudged) }
{
    let mut outcomes = Vec::with_capacity(alloc, count)?;
    for _ in 0..count {
        outcomes.push(Outcome::Unjudged)?;
    }
    Ok(outcomes)
}

/// Whether each of some items has a value.
pub fn are_given(outcomes: &[Outcome], numbers: &[u32]) -> bool
    ensures { result ≡ are_given outcomes.now numbers.now }
{
    for number in numbers {
        if !is_given(outcomes, *number as usize) {
            return false;
        }
    }
    true
}

fn is_given(outcomes: &[Outcome], number: usize) -> bool
    ensures { result ≡ is_given (outcome_at outcomes.now number) }
{
    match outcomes.get(number) {
        Some(Outcome::Given(_)) => true,
        Some(Outcome::Fault(_)) => false,
        Some(Outcome::Unjudged) => false,
        None => false,
    }
}
