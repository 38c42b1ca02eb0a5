//! Ranges of whole numbers.
ghost use Rattle.std.specs.Prelude.{◌≡◌};
ghost use Rattle.aidl_base.specs.Ranges.{is_in};

/// Which numbers a type has.
#[derive(Clone, Copy)]
pub enum Range {
    /// from -128 to 127
    Byte,
    /// from 0 to 65535
    Char,
    /// from -2147483648 to 2147483647
    Int,
    /// of 64 bits
    Long,
}

impl Range {
    /// Whether the number is in the range.
    pub fn has(self, n: i64) -> bool
        ensures { result ≡ is_in self n }
    {
        match self {
            Range::Byte => -128 <= n && n <= 127,
            Range::Char => 0 <= n && n <= 65_535,
            Range::Int => -2_147_483_648 <= n && n <= 2_147_483_647,
            Range::Long => true,
        }
    }
}
