//! The widths of numbers: 32 bits and 64.
ghost use Rattle.std.specs.Prelude.{◌≡◌};
ghost use Rattle.aidl_base.specs.Ranges.{is_in};
ghost use Rattle.const_values.specs.Widths.{bit_count, is_within, wider};

use aidl_base::Range;

/// The width of a number, in bits of two's complement.
#[derive(Clone, Copy, PartialEq, Eq)]
pub enum Width {
    /// 32
    Narrow,
    /// 64
    Wide,
}

impl Width {
    /// The wider of two: the width of the result of `+ - * / %` and `& | ^` (own).
    pub fn or_wider(self, other: Width) -> Width
        ensures { result ≡ wider self other }
    {
        match self {
            Width::Narrow => other,
            Width::Wide => Width::Wide,
        }
    }

    /// The number of bits.
    pub fn bits(self) -> u32
        ensures { result ≡ bit_count self }
    {
        match self {
            Width::Narrow => 32,
            Width::Wide => 64,
        }
    }

    /// Whether a number lies in the width.
    pub fn holds(self, value: i128) -> bool
        ensures { result ≡ is_within self value }
    {
        match i64::try_from(value) {
            Ok(number) => self.range().has(number),
            Err(_) => false,
        }
    }

    // The numbers of the width.
    fn range(self) -> Range
        ensures { is_in result ≡ is_within self }
    {
        match self {
            Width::Narrow => Range::Int,
            Width::Wide => Range::Long,
        }
    }
}
