//! The two recipes of a version's hash, and the text of its `.hash`.
ghost use Rattle.std.specs.Prelude.{◌≡◌, ◌++◌, IfOk, OnOk, string_bytes};
ghost use Rattle.api_hash.specs.HashText as meant;

use crate::digits::digits;
use crate::lines::lines;
use crate::order::in_order;
use aidl_base::{OutOfMemory, SourceFile};
use std::alloc::Global;
use std::fmt::Write;

/// How the hash of a version's files is made (own).
#[derive(Clone, Copy, PartialEq, Eq)]
pub enum Recipe {
    /// from the files alone
    One,
    /// from the files and the version's number
    Two(u32),
}

/// The text of a `.hash` file: 40 digits and a newline (own). Of files with one path the last counts.
pub fn hash_text(
    alloc: Global,
    files: &[SourceFile],
    recipe: Recipe,
) -> Result<Vec<u8>, OutOfMemory>
    ensures { IfOk result (λ text. text.items ≡ meant.hash_text files.now recipe) }
{
    let files = in_order(alloc, files)?;
    let mut hashed = lines(alloc, &files)?;
    push_ending(&mut hashed, recipe)?;
    let mut text = digits(alloc, hashed.as_bytes())?;
    text.push_str("\n")?;
    Ok(text.into_bytes())
}

// Adds what the recipe hashes behind the lines.
fn push_ending(text: &mut String, recipe: Recipe) -> Result<(), OutOfMemory>
    ensures { OnOk result (string_bytes text.new ≡ string_bytes text.old ++ meant.ending recipe) }
{
    match recipe {
        Recipe::One => Ok(()),
        Recipe::Two(number) => {
            writeln!(text, "{number}")?;
            Ok(())
        }
    }
}
