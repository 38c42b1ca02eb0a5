//! The limits on an API's folders, and which version numbers are missing.
ghost use Rattle.std.specs.Prelude.{◌≡◌, None, map, string_bytes};
ghost use Rattle.std.specs.List.{filter, list_any};
ghost use Rattle.aidl_outside.specs.Asks.{AsksNothing};
ghost use Rattle.aidl_outside.specs.Faults.{StoreFaults};
ghost use Rattle.api_versions.specs.Asks.{FailedCall};
ghost use Rattle.api_versions.specs.Answers.{GivesAs, ReadCause};
ghost use Rattle.api_versions.specs.Versions as meant;
ghost use Rattle.api_versions.specs.Seen.{folder_seen};

use crate::fault::{VersionsFault, limit_passed};
use crate::folder::Folder;
use crate::folders::{folders, highest};
use aidl_base::LimitName;
use std::alloc::Global;

/// The folders of all versions by the paths below an API. Refused are numbers above 9,999, and then more than 4,096 `.aidl` files of
/// a version.
pub fn folders_in(alloc: Global, paths: &[String]) -> Result<Vec<Folder>, VersionsFault>
    ensures defined { GivesAs (λ folders. map folder_seen folders.items)
        (meant.folders_in (map string_bytes paths.now)) result }
    ensures cause { (faults : StoreFaults) → ReadCause faults faults result }
    ensures failed { (faults : StoreFaults) → FailedCall (AsksNothing None) faults result }
{
    let highest = highest(paths);
    if highest > LimitName::Versions.number() {
        return Err(limit_passed(LimitName::Versions));
    }
    let folders = folders(alloc, paths, highest)?;
    if is_any_large(folders.as_slice()) {
        return Err(limit_passed(LimitName::Files));
    }
    Ok(folders)
}

fn is_any_large(folders: &[Folder]) -> bool
    ensures { result ≡ list_any meant.is_large (map folder_seen folders.now) }
{
    for folder in folders {
        if folder.sources.len() > LimitName::Files.number() as usize {
            return true;
        }
    }
    false
}

/// The least number of a version without a folder, if any.
pub fn missing(folders: &[Folder]) -> Option<u32>
    ensures { result ≡ meant.missing (map folder_seen folders.now) }
{
    for folder in folders {
        if !folder.is_there {
            return Some(folder.number);
        }
    }
    None
}

/// The folders that are there.
pub fn present(folders: Vec<Folder>) -> Vec<Folder>
    ensures { map folder_seen result.items ≡ meant.present (map folder_seen folders.items) }
{
    let mut present = folders;
    present.retain(|folder| folder.is_there);
    present
}
