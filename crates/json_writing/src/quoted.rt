//! Texts as JSON strings, with or without escapes.
ghost use Rattle.std.specs.Prelude.{◌≡◌};
ghost use Rattle.std.specs.List.{list_all};
ghost use Rattle.growing.specs.Grows.{Grows};
ghost use Rattle.serde_json.specs.Data.{string};
ghost use Rattle.serde_json.specs.Written.{compact_text};
ghost use Rattle.json_writing.specs.steps.Plain as plain;

use growing::GrowingText;
use serde_json::Value as Json;
use std::alloc::Global;

// Adds a text as a JSON string: straight, where none of its characters is escaped, and else by way of a JSON value.
pub fn push_quoted(alloc: Global, quoted: &str, text: &mut GrowingText)
    ensures { Grows text.old text.new (compact_text (string quoted.now)) }
{
    if is_plain(quoted.as_bytes()) {
        text.push('"');
        text.push_str(quoted);
        text.push('"');
        return;
    }
    match Json::try_from_str(alloc, quoted) {
        Ok(json) => match json.to_string(alloc) {
            Ok(written) => text.push_str(written.as_str()),
            Err(_) => text.lose(),
        },
        Err(_) => text.lose(),
    }
}

fn is_plain(bytes: &[u8]) -> bool
    ensures { result ≡ list_all plain.is_plain_byte bytes.now }
{
    bytes.iter().all(|byte| is_plain_byte(*byte))
}

fn is_plain_byte(byte: u8) -> bool
    ensures { result ≡ plain.is_plain_byte byte }
{
    byte >= b' ' && byte != b'"' && byte != b'\\'
}
