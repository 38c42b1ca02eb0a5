//! The JSON arrays of numbers that lie side by side and that no enumerator names.
ghost use Rattle.std.specs.Prelude.{◌≡◌, ◌≤◌, false, true, drop, length, map};
ghost use Rattle.growing.specs.Grows.{Grows};
ghost use Rattle.json_writing.specs.steps.Completes.{Completes};
ghost use Rattle.json_writing.specs.steps.Numbers.{AreByteTexts, ArePairTexts, row_of_texts, text_of_byte};

use crate::byte_texts::{BYTES, PAIRS, texts_of_bytes, texts_of_pairs};
use crate::value_text::push_comma_if;
use arrayvec::ArrayString;
use growing::GrowingText;
use itoa::{Buffer, Integer};
use std::alloc::Global;

// Adds numbers and the bracket behind them: a buffer of digits for all.
pub fn push_numbers<I: Integer>(numbers: &[I], text: &mut GrowingText)
    ensures { Grows text.old text.new (row_of_texts false (map I.text numbers.now)) }
{
    let mut digits = Buffer::new();
    let mut later = false;
    for number in numbers {
        push_comma_if(later, text);
        text.push_str(digits.format(*number));
        later = true;
    }
    text.push(']');
}

// Adds bytes, which are signed, and the bracket behind them.
pub fn push_bytes(alloc: Global, bytes: &[u8], text: &mut GrowingText)
    ensures { Grows text.old text.new (row_of_texts false (map text_of_byte bytes.now)) }
{
    match bytes.split_first() {
        Some((first, others)) => {
            text.push_str(Buffer::new().format(first.cast_signed()));
            push_others(alloc, others, text);
        }
        None => text.push(']'),
    }
}

// Adds the bytes behind the first one: many by a table of their texts, if memory is there for it.
fn push_others(alloc: Global, bytes: &[u8], text: &mut GrowingText)
    ensures { Grows text.old text.new (row_of_texts true (map text_of_byte bytes.now)) }
{
    if bytes.len() < BYTES {
        return push_few(bytes, text);
    }
    match texts_of_bytes(alloc) {
        Ok(texts) => {
            let place = push_pairs(alloc, texts.as_slice(), bytes, text);
            push_texts(texts.as_slice(), &bytes[place..], text);
        }
        Err(_) => push_few(bytes, text),
    }
}

fn push_few(bytes: &[u8], text: &mut GrowingText)
    ensures { Grows text.old text.new (row_of_texts true (map text_of_byte bytes.now)) }
{
    let mut digits = Buffer::new();
    for byte in bytes {
        text.push(',');
        text.push_str(digits.format(byte.cast_signed()));
    }
    text.push(']');
}

// Adds bytes two by two, where they are so many that a table of pairs is worth its making, if memory is there for it. The answer
// is the place of the first byte that is left.
fn push_pairs(
    alloc: Global,
    texts: &[ArrayString<8>],
    bytes: &[u8],
    text: &mut GrowingText,
) -> usize
    requires all { length texts.now ≡ 256 }
    requires texts { AreByteTexts 0 texts.now }
    ensures place { result ≤ length bytes.now }
    ensures left { Completes text.old text.new
        (row_of_texts true (map text_of_byte (drop result bytes.now)))
        (row_of_texts true (map text_of_byte bytes.now)) }
{
    if bytes.len() / 4 < PAIRS {
        return 0;
    }
    match texts_of_pairs(alloc, PAIRS, texts) {
        Ok(pairs) => push_twos(pairs.as_slice(), bytes, text),
        Err(_) => 0,
    }
}

fn push_twos(pairs: &[ArrayString<16>], bytes: &[u8], text: &mut GrowingText) -> usize
    requires all { length pairs.now ≡ 65536 }
    requires texts { ArePairTexts 0 pairs.now }
    ensures place { result ≤ length bytes.now }
    ensures left { Completes text.old text.new
        (row_of_texts true (map text_of_byte (drop result bytes.now)))
        (row_of_texts true (map text_of_byte bytes.now)) }
{
    let count = bytes.len() / 2;
    for i in 0..count {
        let pair = BYTES * bytes[2 * i] as usize + bytes[2 * i + 1] as usize;
        text.push_str(pairs[pair].as_str());
    }
    2 * count
}

// Adds bytes by the texts of all bytes, and the bracket.
fn push_texts(texts: &[ArrayString<8>], bytes: &[u8], text: &mut GrowingText)
    requires all { length texts.now ≡ 256 }
    requires texts { AreByteTexts 0 texts.now }
    ensures { Grows text.old text.new (row_of_texts true (map text_of_byte bytes.now)) }
{
    for byte in bytes {
        text.push_str(texts[*byte as usize].as_str());
    }
    text.push(']');
}
