//! Identifiers as bytes, and the bytes of which they are made.
ghost use Rattle.std.specs.Prelude.{◌≡◌};
ghost use Rattle.std.specs.List.{list_all};
ghost use Rattle.aidl_base.specs.Identifiers as identifiers;

use crate::reserved::reserved_of;

/// Whether these bytes are an identifier: a letter or `_`, then letters, digits and `_`, and no reserved word (AOSP,
/// "AIDL language").
pub fn is_identifier(word: &[u8]) -> bool
    ensures { result ≡ identifiers.is_identifier word.now }
{
    match word {
        [first, ..] if is_letter(*first) => is_word(word) && reserved_of(word).is_none(),
        _ => false,
    }
}

fn is_word(word: &[u8]) -> bool
    ensures { result ≡ list_all identifiers.is_word_byte word.now }
{
    word.iter().all(|b| is_word_byte(*b))
}

/// A letter or `_`.
pub fn is_letter(b: u8) -> bool
    ensures { result ≡ identifiers.is_letter b }
{
    b.is_ascii_alphabetic() || b == b'_'
}

/// A letter, `_` or a digit.
pub fn is_word_byte(b: u8) -> bool
    ensures { result ≡ identifiers.is_word_byte b }
{
    is_letter(b) || b.is_ascii_digit()
}
