//! The lines that a hash is made from, one for each file.
ghost use Rattle.std.specs.Prelude.{◌≡◌, ◌++◌, IfOk, OnOk, map, string_bytes};
ghost use Rattle.std.specs.List.{flat_map};
ghost use Rattle.api_hash.specs.HashText as meant;

use crate::digits::digits;
use aidl_base::{OutOfMemory, SourceFile};
use std::alloc::Global;
use std::fmt::Write;

/// The line of each file.
pub fn lines(alloc: Global, files: &[&SourceFile]) -> Result<String, OutOfMemory>
    ensures { IfOk result (λ text. string_bytes text
        ≡ flat_map meant.line (map (λ f. f.now) files.now)) }
{
    let mut text = String::new(alloc);
    for file in files {
        push_line(alloc, &mut text, file)?;
    }
    Ok(text)
}

// Adds the line of a file.
fn push_line(alloc: Global, text: &mut String, file: &SourceFile) -> Result<(), OutOfMemory>
    ensures { OnOk result (string_bytes text.new ≡ string_bytes text.old ++ meant.line file.now) }
{
    let digits = digits(alloc, file.bytes.as_slice())?;
    let path = file.path.as_str();
    writeln!(text, "{digits}  ./{path}")?;
    Ok(())
}
