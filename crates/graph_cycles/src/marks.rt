//! Flags, numbers and edges by node, with what stands for a node beyond the last.
ghost use Rattle.std.specs.Prelude.{◌≡◌, ℕ, true, false, length, IfOk, vec_len, slice_index, slice_set};
ghost use Rattle.graph_cycles.specs.Paths.{flag, targets};

use aidl_base::{OutOfMemory, Row};
use std::alloc::Global;

/// As many flags, none of them set.
pub fn no_flags(alloc: Global, count: usize) -> Result<Vec<bool>, OutOfMemory>
    ensures len { IfOk result (λ flags. vec_len flags ≡ count) }
    ensures none { IfOk result (λ flags. (n : ℕ) → flag flags.items n ≡ false) }
{
    let flags = Vec::from_elem(alloc, false, count)?;
    Ok(flags)
}

/// The flag at a place, and false beyond the last.
pub fn is_set(flags: &[bool], at: usize) -> bool
    ensures { result ≡ flag flags.now at }
{
    at < flags.len() && flags[at]
}

/// Sets a flag, where there is one.
pub fn set(flags: &mut [bool], at: usize)
    ensures { flags.new ≡ slice_set flags.old at true }
{
    if at < flags.len() {
        flags[at] = true;
    }
}

/// The number at a place, and 0 beyond the last.
pub fn number_at(numbers: &[usize], at: usize) -> usize
    ensures { result ≡ slice_index numbers.now at }
{
    if at < numbers.len() { numbers[at] } else { 0 }
}

/// Puts a number at a place, where there is one.
pub fn put(numbers: &mut [usize], at: usize, number: usize)
    ensures { length numbers.new ≡ length numbers.old }
{
    if at < numbers.len() {
        numbers[at] = number;
    }
}

/// The nodes that a node leads to: none beyond the last row.
pub fn targets_of(edges: &[Row<u32>], node: usize) -> &[u32]
    ensures { result.now ≡ targets edges.now node }
{
    match edges.get(node) {
        Some(row) => row.as_slice(),
        None => &[],
    }
}
