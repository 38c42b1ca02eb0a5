//! The text of a block: UTF-16 units, a zero unit and padding.
ghost use Rattle.std.specs.Prelude.{◌≡◌, ◌+◌, ◌*◌, ◌≤◌, length, map, IfOk, IfSome, IsTrue, if◌then◌else◌};
ghost use Rattle.std.specs.Int.{w16, from_le_bytes};
ghost use Rattle.std.specs.Str.{IsAscii};
ghost use Rattle.std.specs.Char.Utf16.{has_unpaired_surrogate, utf16_lossy_chars};
ghost use Rattle.aidl_base.specs.Readings.{units_of, text_of};

use crate::padding::is_zero;
use aidl_base::{OutOfMemory, Profile, Text};
use std::alloc::Global;

// The most units of a text that is put together in place.
const SHORT: usize = 16;

/// The text of a block of so many units. None where the units aren't well-formed UTF-16, the unit after them isn't
/// zero, or the profile doesn't permit the padding.
#[tactic(auto, unfolding(aidl_base::specs::Readings::text_of, aidl_base::specs::Readings::ends_text))]
pub fn text_of(
    alloc: Global,
    profile: Profile,
    count: usize,
    block: &[u8],
) -> Result<Option<Text>, OutOfMemory>
    requires { 2 * count + 2 ≤ length block.now }
    ensures { IfOk result (λ text. text ≡ text_of profile count block.now) }
{
    let (bytes, tail) = block.split_at(2 * count);
    let text = text_in(alloc, bytes)?;
    let (zero_unit, padding) = tail.split_at(2);
    if is_zero(zero_unit) && profile.permits(is_zero(padding)) {
        Ok(text)
    } else {
        Ok(None)
    }
}

/// The text of units, two bytes each. Those of ASCII are taken as they stand.
fn text_in(alloc: Global, bytes: &[u8]) -> Result<Option<Text>, OutOfMemory>
    ensures { IfOk result (λ text. text ≡ (if has_unpaired_surrogate (units_of bytes.now)
        then None else Some (utf16_lossy_chars (units_of bytes.now)))) }
{
    let (pairs, _) = bytes.as_chunks::<2>();
    match ascii_text(alloc, pairs)? {
        Some(text) => Ok(Some(text)),
        None => well_formed(alloc, units_of(alloc, bytes)?.as_slice()),
    }
}

/// The text of units below 128. None where another stands among them.
fn ascii_text(alloc: Global, pairs: &[[u8; 2]]) -> Result<Option<Text>, OutOfMemory>
    ensures { IfOk result (λ o. IfSome o
        (λ text. (text ≡ map (from_le_bytes w16) pairs.now) × IsAscii text)) }
{
    if SHORT < pairs.len() {
        return long_text(alloc, pairs);
    }
    let mut bytes = [0; SHORT];
    let front = &mut bytes[..pairs.len()];
    if !is_ascii_put(pairs, front) {
        return Ok(None);
    }
    // They are UTF-8, which is proved and not tested again.
    let text = unsafe { std::str::from_utf8_unchecked(front) };
    Ok(Some(Text::from_str(alloc, text)?))
}

/// Puts units below 128 one byte each, and answers whether all are.
fn is_ascii_put(pairs: &[[u8; 2]], bytes: &mut [u8]) -> bool
    requires { length pairs.now ≡ length bytes.old }
    ensures { IsTrue result
        → (bytes.new ≡ map (from_le_bytes w16) pairs.now) × IsAscii bytes.new }
{
    for i in 0..pairs.len() {
        let unit = u16::from_le_bytes(pairs[i]);
        if 128 <= unit {
            return false;
        }
        bytes[i] = unit as u8;
    }
    true
}

fn long_text(alloc: Global, pairs: &[[u8; 2]]) -> Result<Option<Text>, OutOfMemory>
    ensures { IfOk result (λ o. IfSome o
        (λ text. (text ≡ map (from_le_bytes w16) pairs.now) × IsAscii text)) }
{
    let mut text = String::with_capacity(alloc, pairs.len())?;
    for pair in pairs {
        let unit = u16::from_le_bytes(*pair);
        if 128 <= unit {
            return Ok(None);
        }
        text.push(char::from(unit as u8))?;
    }
    Ok(Some(Text::from_string(text)))
}

/// The text of well-formed units.
fn well_formed(alloc: Global, units: &[u16]) -> Result<Option<Text>, OutOfMemory>
    ensures { IfOk result (λ text. text ≡ (if has_unpaired_surrogate units.now
        then None else Some (utf16_lossy_chars units.now))) }
{
    match String::from_utf16(alloc, units)? {
        Ok(text) => Ok(Some(Text::from_string(text))),
        Err(_) => Ok(None),
    }
}

/// The units of bytes, two each, least first.
fn units_of(alloc: Global, bytes: &[u8]) -> Result<Vec<u16>, OutOfMemory>
    ensures { IfOk result (λ units. units.items ≡ units_of bytes.now) }
{
    let (pairs, _) = bytes.as_chunks::<2>();
    let mut units = Vec::with_capacity(alloc, pairs.len())?;
    for pair in pairs {
        units.push(u16::from_le_bytes(*pair))?;
    }
    Ok(units)
}
