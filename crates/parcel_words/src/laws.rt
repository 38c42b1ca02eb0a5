//! Laws of values as words. Each holds for every type of values, and the functions do nothing.
ghost use Rattle.std.specs.Prelude.{◌≡◌, ◌≤◌, ℕ, List, [], ◌++◌, Bool, Ok, Some, length, All};
ghost use Rattle.aidl_base.specs.declared.profile.Profile.{Profile};
ghost use Rattle.aidl_base.specs.Spellings.{spell_sequence};
ghost use Rattle.aidl_base.specs.Readings.{sequence_at};

use crate::wire::Wire;

/// What was put is taken again by either profile, whatever follows it, in a record or outside one.
pub fn law_taken_again<W: Wire>(value: &W)
    requires value { W.is_value value.now }
    requires can { W.can_put value.now }
    ensures { (p : Profile) (inside : Bool) (rest : List ℕ)
        → W.reading p inside (W.spelling value.now ++ rest) ≡ Ok (value.now, rest) }
{}

/// No spelling is a proper prefix of another.
pub fn law_no_prefix<W: Wire>(first: &W, second: &W)
    requires first { W.is_value first.now }
    requires first_can { W.can_put first.now }
    requires second { W.is_value second.now }
    requires second_can { W.can_put second.now }
    ensures { (rest : List ℕ) → W.spelling first.now ++ rest ≡ W.spelling second.now → rest ≡ [] }
{}

/// A sequence that was put is taken again by either profile, whatever follows it, in a record or outside one.
pub fn law_sequence_taken_again<W: Wire>(items: &[W])
    requires few { length items.now ≤ 2147483647 }
    requires values { All W.is_value items.now }
    requires can { All W.can_put items.now }
    ensures { (p : Profile) (nullable inside : Bool) (rest : List ℕ)
        → sequence_at (W.reading p) nullable inside (spell_sequence W.spelling items.now ++ rest)
        ≡ Ok (Some items.now, rest) }
{}

/// No spelling of a sequence is a proper prefix of another.
pub fn law_sequence_no_prefix<W: Wire>(first: &[W], second: &[W])
    requires first_few { length first.now ≤ 2147483647 }
    requires first { All W.is_value first.now }
    requires first_can { All W.can_put first.now }
    requires second_few { length second.now ≤ 2147483647 }
    requires second { All W.is_value second.now }
    requires second_can { All W.can_put second.now }
    ensures { (rest : List ℕ)
        → spell_sequence W.spelling first.now ++ rest ≡ spell_sequence W.spelling second.now
        → rest ≡ [] }
{}
