//! Bytes as a word of a trace.
ghost use Rattle.std.specs.Prelude.{◌≡◌, ◌%◌, ◌==◌, ◌&&◌, List, ℕ, Some, IfOk, bytes_eq, codes, is_some, length, nat_lt, true};
ghost use Rattle.std.specs.List.{list_all};
ghost use Rattle.aidl_base.specs.Limits.{limit_number};
ghost use Rattle.aidl_base.specs.declared.limit.LimitName.TheVariants.{ParcelBytes};
ghost use Rattle.hex.specs.Hex.{is_hex_digit};
ghost use Rattle.parcel_replay.specs.Traced as traced;

use aidl_base::{LimitName, OutOfMemory};
use hex::FromHexError;
use std::alloc::Global;

/// Whether a word is bytes: two hexadecimal digits each, in either case, or `-` for none.
#[tactic(auto, unfolding(crate::specs::Traced::bytes_of), using(crate::proofs::Digits::pairs_decode))]
pub fn is_parcel(word: &[u8]) -> bool
    ensures { result ≡ is_some (traced.bytes_of word.now) }
{
    if is_dash(word) {
        return true;
    }
    !word.is_empty() && are_pairs(word)
}

fn is_dash(word: &[u8]) -> bool
    ensures { result ≡ bytes_eq word.now (codes "-") }
{
    word == b"-".as_slice()
}

fn are_pairs(digits: &[u8]) -> bool
    ensures { result ≡ (length digits.now % 2 == 0 && list_all is_hex_digit digits.now) }
{
    digits.len() % 2 == 0 && are_digits(digits)
}

fn are_digits(digits: &[u8]) -> bool
    ensures { result ≡ list_all is_hex_digit digits.now }
{
    digits.iter().all(|b| is_digit(*b))
}

fn is_digit(byte: u8) -> bool
    ensures { result ≡ is_hex_digit byte }
{
    byte.is_ascii_hexdigit()
}

/// Whether a word of bytes stands for more than a parcel has, 1,048,576.
pub fn is_too_large(word: &[u8]) -> bool
    ensures { (bytes : List ℕ) → traced.bytes_of word.now ≡ Some bytes
        → result ≡ nat_lt (limit_number ParcelBytes) (length bytes) }
{
    word.len() / 2 > LimitName::ParcelBytes.number() as usize
}

/// The bytes that a word stands for.
#[tactic(auto, unfolding(crate::specs::Traced::bytes_of))]
pub fn bytes_of(alloc: Global, word: &[u8]) -> Result<Vec<u8>, OutOfMemory>
    requires { is_some (traced.bytes_of word.now) ≡ true }
    ensures { IfOk result (λ bytes. traced.bytes_of word.now ≡ Some bytes.items) }
{
    if is_dash(word) {
        return Ok(Vec::new(alloc));
    }
    match hex::decode(alloc, word) {
        Ok(bytes) => Ok(bytes),
        Err(FromHexError::OutOfMemory) => Err(OutOfMemory),
        Err(_) => unreachable!(),
    }
}
