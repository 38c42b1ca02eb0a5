//! The marks of names, by which they are looked up.
ghost use Rattle.std.specs.Prelude.{◌≡◌, ◌<◌, map, IfOk};
ghost use Rattle.std.specs.List.{fold};
ghost use Rattle.declared_names.specs.Marks.{with_byte, with_part, mark_of_entry};
ghost use Rattle.declared_names.specs.Entries.{entry_of};

use crate::found::Found;
use aidl_base::{Ident, OutOfMemory};
use std::alloc::Global;

#[tactic(auto, unfolding(crate::specs::Marks::with_byte))]
fn with_byte(mark: u64, byte: u8) -> u64
    ensures { result ≡ with_byte mark byte }
{
    (mark % 36_028_797_018_963_913 * 257 + u64::from(byte)) % 36_028_797_018_963_913
}

/// The mark of a name with one more part, from that of the name.
pub fn with_part(mark: u64, part: &Ident) -> u64
    ensures { result ≡ with_part mark part.now }
{
    let mut all = mark;
    for byte in part.0.as_str().as_bytes() {
        all = with_byte(all, *byte);
    }
    with_byte(all, b'.')
}

/// The mark of a name with more parts behind it, from that of the name.
pub fn with_parts(mark: u64, parts: &[Ident]) -> u64
    ensures { result ≡ fold with_part mark parts.now }
{
    let mut all = mark;
    for part in parts {
        all = with_part(all, part);
    }
    all
}

/// The marks of declarations.
pub fn marks(alloc: Global, found: &[Found<'_>]) -> Result<Vec<u64>, OutOfMemory>
    ensures { IfOk result (λ marks. marks.items ≡ map mark_of_entry (map entry_of found.now)) }
{
    let mut all = Vec::with_capacity(alloc, found.len())?;
    for f in found {
        all.push(with_parts(0, f.name.0.as_slice()))?;
    }
    Ok(all)
}
