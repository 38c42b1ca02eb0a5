//! The escapes of a text of a row: bytes in hexadecimal and repetitions.
ghost use Rattle.std.specs.Prelude.{◌<◌};

use aidl_base::OutOfMemory;
use std::alloc::Global;

/// The bytes that a text of a row stands for: `\xNN` is the byte NN in hexadecimal, `\*COUNT:TEXT\*` is TEXT so many
/// times, `\|COUNT:TEXT\*` the same with a newline behind each, and any other backslash is itself.
pub fn plain(alloc: Global, text: &str) -> Result<Vec<u8>, OutOfMemory> {
    let mut bytes = Vec::new(alloc);
    let mut is_first = true;
    let mut repeats = false;
    for piece in text.split('\\') {
        if is_first {
            bytes.extend_from_slice(piece.as_bytes())?;
            is_first = false;
        } else {
            repeats = push_piece(&mut bytes, piece, repeats)?;
        }
    }
    Ok(bytes)
}

/// The same as a string, or the empty one where the bytes are no text.
pub fn text_of(alloc: Global, text: &str) -> Result<String, OutOfMemory> {
    let bytes = plain(alloc, text)?;
    let text = std::str::from_utf8(bytes.as_slice()).unwrap_or("");
    Ok(String::from_str(alloc, text)?)
}

// Adds what a piece behind a backslash stands for. Whether a repetition is open then.
fn push_piece(bytes: &mut Vec<u8>, piece: &str, repeats: bool) -> Result<bool, OutOfMemory> {
    match (piece.as_bytes(), repeats) {
        ([b'*', rest @ ..], true) => {
            bytes.extend_from_slice(rest)?;
            Ok(false)
        }
        ([b'*', ..], false) => {
            push_repeated(bytes, piece, '*', b"")?;
            Ok(true)
        }
        ([b'|', ..], false) => {
            push_repeated(bytes, piece, '|', b"\n")?;
            Ok(true)
        }
        ([b'x', high, low, rest @ ..], _) => {
            bytes.push(digit(*high) * 16 + digit(*low))?;
            bytes.extend_from_slice(rest)?;
            Ok(repeats)
        }
        (rest, _) => {
            bytes.push(b'\\')?;
            bytes.extend_from_slice(rest)?;
            Ok(repeats)
        }
    }
}

// Adds TEXT and an end so many times, of a piece with a mark, COUNT, a colon and TEXT.
fn push_repeated(
    bytes: &mut Vec<u8>,
    piece: &str,
    mark: char,
    end: &[u8],
) -> Result<(), OutOfMemory> {
    let (count, text) = piece.split_once(':').unwrap_or((piece, ""));
    let count = count.strip_prefix(mark).unwrap_or(count);
    for _ in 0..count.parse::<u32>().unwrap_or(0) {
        bytes.extend_from_slice(text.as_bytes())?;
        bytes.extend_from_slice(end)?;
    }
    Ok(())
}

// What a hexadecimal digit in lower case counts; another byte counts nothing.
fn digit(byte: u8) -> u8
    ensures { result < 16 }
{
    match byte {
        b'0'..=b'9' => byte - b'0',
        b'a'..=b'f' => byte - b'a' + 10,
        _ => 0,
    }
}
