//! The decimal texts of the 256 bytes, and of each two of them.
ghost use Rattle.std.specs.Prelude.{◌≡◌, ◌≤◌, ◌++◌, ◌∷◌, IfOk, length};
ghost use Rattle.std.specs.Fmt.{signed_decimal};
ghost use Rattle.json_writing.specs.steps.Numbers.{AreByteTexts, ArePairTexts};

use aidl_base::OutOfMemory;
use arrayvec::ArrayString;
use itoa::Buffer;
use std::alloc::Global;

// How many bytes there are.
pub const BYTES: usize = 256;

// How many pairs of bytes there are.
pub const PAIRS: usize = BYTES * BYTES;

// The text of each byte, signed, behind a comma.
pub fn texts_of_bytes(alloc: Global) -> Result<Vec<ArrayString<8>>, OutOfMemory>
    ensures all { IfOk result (λ texts. length texts.items ≡ 256) }
    ensures texts { IfOk result (λ texts. AreByteTexts 0 texts.items) }
{
    let mut texts = Vec::with_capacity(alloc, BYTES)?;
    for byte in 0..BYTES {
        texts.push(behind_comma((byte as u8).cast_signed()))?;
    }
    Ok(texts)
}

fn behind_comma(n: i8) -> ArrayString<8>
    ensures { result.bytes ≡ 44 ∷ signed_decimal n }
{
    let mut text = ArrayString::new();
    text.push_str(",");
    let mut digits = Buffer::new();
    text.push_str(digits.format(n));
    text
}

// The texts of so many pairs of bytes, one behind the other. The first byte of a pair is its number by 256.
pub fn texts_of_pairs(
    alloc: Global,
    count: usize,
    texts: &[ArrayString<8>],
) -> Result<Vec<ArrayString<16>>, OutOfMemory>
    requires few { count ≤ 65536 }
    requires all { length texts.now ≡ 256 }
    requires texts { AreByteTexts 0 texts.now }
    ensures all { IfOk result (λ pairs. length pairs.items ≡ count) }
    ensures texts { IfOk result (λ pairs. ArePairTexts 0 pairs.items) }
{
    let mut pairs = Vec::with_capacity(alloc, count)?;
    for pair in 0..count {
        pairs.push(joined(&texts[pair / BYTES], &texts[pair % BYTES]))?;
    }
    Ok(pairs)
}

fn joined(first: &ArrayString<8>, second: &ArrayString<8>) -> ArrayString<16>
    ensures { result.bytes ≡ first.now.bytes ++ second.now.bytes }
{
    let mut text = ArrayString::new();
    text.push_str(first.as_str());
    text.push_str(second.as_str());
    text
}
