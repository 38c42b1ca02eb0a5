//! The zeros that pad an item to a multiple of four bytes.
ghost use Rattle.std.specs.Prelude.{◌≡◌};
ghost use Rattle.aidl_base.specs.Words.{padding};
ghost use Rattle.aidl_base.specs.Profiles.{all_zero};

/// The fewest zeros that make a length a multiple of 4.
pub fn padding_of(len: usize) -> usize
    ensures { result ≡ padding len }
{
    (4 - len % 4) % 4
}

/// Whether all bytes are zero.
pub fn is_zero(bytes: &[u8]) -> bool
    ensures { result ≡ all_zero bytes.now }
{
    for byte in bytes {
        if *byte != 0 {
            return false;
        }
    }
    true
}
