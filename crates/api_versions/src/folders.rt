//! The folders of an API's versions, by the paths of a listing.
ghost use Rattle.std.specs.Prelude.{◌≡◌, ◌≤◌, ◌<◌, length, map, min, IfOk, OnOk, string_bytes};
ghost use Rattle.std.specs.List.{range_with_len};
ghost use Rattle.api_versions.specs.Folders as meant;
ghost use Rattle.api_versions.specs.Places.{place_of, places};
ghost use Rattle.api_versions.specs.Seen.{folder_seen};
ghost use Rattle.api_versions.specs.steps.Adding.{AreNumbered, no_folder, number_or_zero, with_place};

use crate::folder::Folder;
use crate::place::place_of;
use aidl_base::OutOfMemory;
use std::alloc::Global;

/// The highest version number of the paths below an API, 0 where there is none, and 10,000 where it is above 9,999.
pub fn highest(paths: &[String]) -> u32
    ensures { result ≡ min 10000 (meant.highest (places (map string_bytes paths.now))) }
{
    let mut highest = 0;
    for path in paths {
        highest = number_of(path.as_str()).max(highest);
    }
    highest
}

// The number of a path's version, 0 where it belongs to none, and 10,000 where it is above 9,999.
fn number_of(path: &str) -> u32
    ensures { result ≡ min 10000 (number_or_zero (place_of path.now)) }
{
    match place_of(path) {
        Some(place) => place.number,
        None => 0,
    }
}

/// The folders of the versions from 1 to a number, by the paths below an API.
pub fn folders(alloc: Global, paths: &[String], highest: u32) -> Result<Vec<Folder>, OutOfMemory>
    requires { highest ≤ 9999 }
    ensures { IfOk result (λ folders.
        map folder_seen folders.items
        ≡ map (meant.folder (places (map string_bytes paths.now))) (range_with_len 1 highest)) }
{
    let mut folders = empty_folders(alloc, highest)?;
    for path in paths {
        add_path(alloc, path.as_str(), &mut folders)?;
    }
    Ok(folders)
}

fn empty_folders(alloc: Global, highest: u32) -> Result<Vec<Folder>, OutOfMemory>
    requires { highest ≤ 9999 }
    ensures { IfOk result
        (λ folders. map folder_seen folders.items ≡ map no_folder (range_with_len 1 highest)) }
{
    let mut folders = Vec::with_capacity(alloc, highest as usize)?;
    for before in 0..highest {
        folders.push(Folder::empty(alloc, before + 1))?;
    }
    Ok(folders)
}

// Adds a path to the folder of its version, where it belongs to one of these.
fn add_path(alloc: Global, path: &str, folders: &mut Vec<Folder>) -> Result<(), OutOfMemory>
    requires numbered { AreNumbered (map folder_seen folders.old.items) }
    requires few { length folders.old.items ≤ 9999 }
    ensures { OnOk result
        (map folder_seen folders.new.items
        ≡ map (with_place (place_of path.now)) (map folder_seen folders.old.items)) }
{
    let Some(place) = place_of(path) else {
        return Ok(());
    };
    let index = place.number as usize - 1;
    if index >= folders.len() {
        return Ok(());
    }
    folders[index].add(alloc, place.path)
}
