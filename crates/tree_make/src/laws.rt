//! A law of numbers in the order of their decimals.
ghost use Rattle.std.specs.Prelude.{ℕ, ◌<◌, ◌↔◌, Contains, map};
ghost use Rattle.std.specs.Fmt.{decimal};
ghost use Rattle.std.specs.Cmp.Lexicographic.{slice_cmp};
ghost use Rattle.std.specs.List.Sorted.{IsStrictlySortedBy};
ghost use Rattle.std.specs.Ordering.{nat_cmp};
ghost use Rattle.tree_make.specs.Made.{in_order};

/// Numbers in order have decimals that ascend strictly by their bytes, and are all numbers below the count.
pub fn law_in_order(count: u32)
    ensures sorted { IsStrictlySortedBy (slice_cmp nat_cmp) (map decimal (in_order count)) }
    ensures same { (k : ℕ) → Contains (in_order count) k ↔ (k < count) }
{}
