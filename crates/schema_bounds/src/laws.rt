//! Laws of the bounds: which declarations reach a cycle of containment, and what holds where all are within bounds.
ghost use Rattle.std.specs.Prelude.{◌≡◌, ℕ, ◌<◌, ◌↔◌, IsTrue, false, length};
ghost use Rattle.aidl_schema.specs.Sizes.{has_small_default};
ghost use Rattle.aidl_schema.specs.Valid.{is_bounded, one_of};
ghost use Rattle.schema_bounds.specs.Bounds.{ReachesCycle, bound, reaches_cycle};
ghost use Rattle.schema_bounds.specs.declared.bound.Bound.TheVariants.{TooLarge, Within};

use aidl_schema::Decl;

/// The test says exactly where a declaration reaches a cycle of containment, by chains however long.
pub fn law_reaches_cycle(decls: &[Decl])
    ensures { (n : ℕ) → IsTrue (reaches_cycle decls.now n) ↔ ReachesCycle decls.now n }
{}

/// A declaration is too large (E23) exactly where it reaches no cycle of containment and its default isn't counted as small. That
/// the default, as a value, is then deeper than 32 levels or has more than 512 nodes say laws of `aidl_values`.
pub fn law_too_large(decls: &[Decl])
    ensures { (n : ℕ) → (bound decls.now n ≡ TooLarge)
        ↔ ((ReachesCycle decls.now n → ⊥) × (has_small_default decls.now (one_of n) ≡ false)) }
{}

/// Where each declaration is within bounds, none holds itself and each has a small default: what a valid schema wants.
pub fn law_within(decls: &[Decl])
    ensures { ((n : ℕ) → n < length decls.now → bound decls.now n ≡ Within)
        → (n : ℕ) → n < length decls.now → IsTrue (is_bounded decls.now n) }
{}
