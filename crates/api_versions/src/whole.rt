//! Whether versions are whole: the `.hash` that each keeps, against what the recipes give.
ghost use Rattle.std.specs.Prelude.{◌≡◌, IfOk};
ghost use Rattle.api_versions.specs.Whole as meant;

use crate::text::text_of;
use crate::version::Version;
use aidl_base::{OutOfMemory, Row, Text};
use api_hash::{Recipe, hash_text};
use std::alloc::Global;

/// The text that a version's `.hash` is to have, by the second recipe: 40 digits and a newline.
pub fn defined_text(alloc: Global, version: &Version) -> Result<Vec<u8>, OutOfMemory>
    ensures { IfOk result (λ text. text.items ≡ meant.defined version.now) }
{
    hash_text(alloc, version.files.as_slice(), Recipe::Two(version.number))
}

/// Whether a version is whole: its `.hash` has the text of either recipe.
pub fn is_whole(alloc: Global, version: &Version) -> Result<bool, OutOfMemory>
    ensures { IfOk result (λ yes. yes ≡ meant.is_whole version.now) }
{
    let first = hash_text(alloc, version.files.as_slice(), Recipe::One)?;
    if is_kept(&version.kept, first.as_slice()) {
        return Ok(true);
    }
    is_current(alloc, version)
}

/// Whether a version's `.hash` has the text of the second recipe.
pub fn is_current(alloc: Global, version: &Version) -> Result<bool, OutOfMemory>
    ensures { IfOk result (λ yes. yes ≡ meant.is_current version.now) }
{
    let second = defined_text(alloc, version)?;
    Ok(is_kept(&version.kept, second.as_slice()))
}

fn is_kept(kept: &Option<Row<u8>>, text: &[u8]) -> bool
    ensures { result ≡ meant.is_kept kept.now text.now }
{
    match kept {
        Some(kept) => kept.as_slice() == text,
        None => false,
    }
}

/// A version that isn't whole: its number, what its `.hash` keeps, and the text of the second recipe for it.
#[derive(Drop)]
pub struct Torn {
    pub version: u32,
    pub kept: Option<Row<u8>>,
    pub text: Text,
}

/// The least version that isn't whole, if any.
pub fn first_torn(alloc: Global, versions: &[Version]) -> Result<Option<Torn>, OutOfMemory>
    ensures { IfOk result (λ torn. torn ≡ meant.first_torn versions.now) }
{
    for version in versions {
        if !is_whole(alloc, version)? {
            return Ok(Some(torn_of(alloc, version)?));
        }
    }
    Ok(None)
}

fn torn_of(alloc: Global, version: &Version) -> Result<Torn, OutOfMemory>
    ensures { IfOk result (λ torn. torn ≡ meant.torn_of version.now) }
{
    let defined = defined_text(alloc, version)?;
    Ok(Torn {
        version: version.number,
        kept: copy_of(alloc, &version.kept)?,
        text: text_of(alloc, defined.as_slice())?,
    })
}

fn copy_of(alloc: Global, kept: &Option<Row<u8>>) -> Result<Option<Row<u8>>, OutOfMemory>
    ensures { IfOk result (λ copy. copy ≡ kept.now) }
{
    match kept {
        Some(bytes) => Ok(Some(Row::from_vec(Vec::from_slice(alloc, bytes.as_slice())?))),
        None => Ok(None),
    }
}
