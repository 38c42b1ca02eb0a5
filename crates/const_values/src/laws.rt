//! Laws of the arithmetic of constants: decimals, remainders, shifts and the complement.
ghost use Rattle.std.specs.Prelude.{◌≡◌, ◌<◌, ◌*◌, ◌^◌, ◌≤ℤ◌, ◌<ℤ◌, pos, neg_ℤ, ◌+ℤ◌, ◌-ℤ◌, ◌*ℤ◌, int_div, int_rem, unsigned_abs, IsTrue, true, false, if◌then◌else◌, nat_le};
ghost use Rattle.std.specs.Int.{int_bit_not, int_shl, int_shr};
ghost use Rattle.const_values.specs.Literals.{number_of};
ghost use Rattle.const_values.specs.Widths.{form_of, is_within};
ghost use Rattle.const_values.specs.Operands.{number};
ghost use Rattle.const_values.specs.declared.width.Width.TheVariants.{Narrow, Wide};

use crate::width::Width;

/// A law of the definitions: a decimal, which is at most 9223372036854775807, is its number, with the suffix or without.
pub fn law_decimal_is_its_number(bits: u64)
    ensures long { bits < 2 ^ 63 → number_of false true bits ≡ number Wide (pos bits) }
    ensures plain { bits < 2 ^ 63 → number_of false false bits
        ≡ number (if nat_le bits 2147483647 then Narrow else Wide) (pos bits) }
{}

/// A law of the definitions: `a - (a / b) * b` is the remainder with the sign of `a`, and where `b` isn't 0 smaller than `b` in size.
pub fn law_remainder(a: i64, b: i64)
    ensures same { a -ℤ int_div a b *ℤ b ≡ int_rem a b }
    ensures smaller { 0 < unsigned_abs b → unsigned_abs (a -ℤ int_div a b *ℤ b) < unsigned_abs b }
{}

/// A law of the definitions: `<<` multiplies by the power of two, where the product lies inside the width.
pub fn law_left_shift_multiplies(width: Width, a: i64, places: u32)
    ensures { IsTrue (is_within width (a *ℤ pos (2 ^ places)))
        → int_shl (form_of width) a places ≡ a *ℤ pos (2 ^ places) }
{}

/// A law of the definitions: `>>` rounds down, to the greatest number whose product with the power of two is no more.
pub fn law_right_shift_rounds_down(a: i64, places: u32)
    ensures least { (int_shr a places *ℤ pos (2 ^ places)) ≤ℤ a }
    ensures greatest { a <ℤ ((int_shr a places +ℤ pos 1) *ℤ pos (2 ^ places)) }
{}

/// A law of the definitions: turning all bits of a number gives `-a - 1`.
pub fn law_complement(width: Width, a: i64)
    ensures { IsTrue (is_within width a) → int_bit_not (form_of width) a ≡ neg_ℤ a -ℤ pos 1 }
{}
