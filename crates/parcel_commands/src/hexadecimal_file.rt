//! The bytes that a file of hexadecimal digits and blanks stands for.
ghost use Rattle.std.specs.Prelude.{◌≡◌, IfOk, not};
ghost use Rattle.std.specs.List.{filter};
ghost use Rattle.std.specs.Option.{option_map};
ghost use Rattle.std.specs.Result.{result_ok};
ghost use Rattle.hex.specs.Hex.{decode_of};
ghost use Rattle.aidl_base.specs.Blanks.{is_blank};
ghost use Rattle.parcel_commands.specs.HexadecimalFile.{hexadecimal};

use aidl_base::OutOfMemory;
use hex::FromHexError;
use std::alloc::Global;

/// The bytes that a hexadecimal file stands for. None where a byte stands that is neither a digit nor a blank, or
/// where the number of digits is odd. Where digits alone stand in one line, they are decoded as they stand.
pub fn hexadecimal(alloc: Global, file: Vec<u8>) -> Result<Option<Vec<u8>>, OutOfMemory>
    ensures { IfOk result (λ bytes. option_map (λ v. v.items) bytes ≡ hexadecimal file.items) }
{
    if let Some(bytes) = decoded(alloc, line_of(file.as_slice()))? {
        return Ok(Some(bytes));
    }
    let mut digits = file;
    digits.retain(|byte| !is_blank(*byte));
    decoded(alloc, digits.as_slice())
}

// The file without the newline at its end, where one stands there.
fn line_of(file: &[u8]) -> &[u8]
    ensures { filter (λ b. not (is_blank b)) result.now ≡ filter (λ b. not (is_blank b)) file.now }
{
    match file {
        [line @ .., last] => { if *last == b'\n' { line } else { file } }
        [] => file,
    }
}

// The bytes of digits. None where another byte stands, or their number is odd.
fn decoded(alloc: Global, digits: &[u8]) -> Result<Option<Vec<u8>>, OutOfMemory>
    ensures { IfOk result (λ bytes. option_map (λ v. v.items) bytes
        ≡ result_ok (decode_of digits.now)) }
{
    match hex::decode(alloc, digits) {
        Ok(bytes) => Ok(Some(bytes)),
        Err(FromHexError::OutOfMemory) => Err(OutOfMemory),
        Err(_) => Ok(None),
    }
}

fn is_blank(byte: u8) -> bool
    ensures { result ≡ is_blank byte }
{
    matches!(byte, b' ' | b'\t' | b'\r' | b'\n')
}
