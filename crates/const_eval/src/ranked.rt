//! Numbers sorted by their ranks.
ghost use Rattle.std.specs.Prelude.{ℕ, ◌≡◌, ◌<◌, IfOk, Contains, slice_index, vec_len};
ghost use Rattle.std.specs.List.{All};
ghost use Rattle.std.specs.List.Sorted.{IsNonDecreasingBy};

use aidl_base::OutOfMemory;
use std::alloc::Global;

/// The numbers below a count, in the order of their ranks. A number beyond the last rank has rank 0.
pub fn ranked(alloc: Global, count: usize, ranks: &[usize]) -> Result<Vec<usize>, OutOfMemory>
    ensures each { IfOk result (λ order. (n : ℕ) → n < count → Contains order.items n) }
    ensures below { IfOk result (λ order. All (λ n. n < count) order.items) }
    ensures order { IfOk result (λ order. IsNonDecreasingBy
        (λ n. slice_index ranks.now n) order.items) }
{
    let mut order = numbers_below(alloc, count)?;
    order.sort_by_key(|number| rank_of(ranks, *number))?;
    Ok(order)
}

fn numbers_below(alloc: Global, count: usize) -> Result<Vec<usize>, OutOfMemory>
    ensures len { IfOk result (λ numbers. vec_len numbers ≡ count) }
    ensures at { IfOk result (λ numbers. (n : ℕ) → n < count → slice_index numbers.items n ≡ n) }
{
    let mut numbers = Vec::with_capacity(alloc, count)?;
    for number in 0..count {
        numbers.push(number)?;
    }
    Ok(numbers)
}

fn rank_of(ranks: &[usize], number: usize) -> usize
    ensures { result ≡ slice_index ranks.now number }
{
    if number < ranks.len() {
        ranks[number]
    } else {
        0
    }
}
