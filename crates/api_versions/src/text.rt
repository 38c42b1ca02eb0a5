//! Bytes as a text, one character for each.
ghost use Rattle.std.specs.Prelude.{◌≡◌, IfOk, string_bytes};
ghost use Rattle.std.specs.Str.{encode_utf8_all};

use aidl_base::{OutOfMemory, Text};
use std::alloc::Global;

/// The text whose characters have the numbers of these bytes.
pub fn text_of(alloc: Global, bytes: &[u8]) -> Result<Text, OutOfMemory>
    ensures { IfOk result (λ text. text ≡ bytes.now) }
{
    let text = string_of(alloc, bytes)?;
    Ok(Text::from_string(text))
}

fn string_of(alloc: Global, bytes: &[u8]) -> Result<String, OutOfMemory>
    ensures { IfOk result (λ text. string_bytes text ≡ encode_utf8_all bytes.now) }
{
    let mut text = String::new(alloc);
    for byte in bytes {
        text.push(char::from(*byte))?;
    }
    Ok(text)
}
