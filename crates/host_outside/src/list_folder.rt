//! The listing of all files below a folder of the host.
ghost use Rattle.std.specs.Prelude.{◌≡◌, ◌≤◌, ◌+◌, true, IfOk, IsTrue, OnErr, OnOk, map, string_bytes, vec_len};
ghost use Rattle.aidl_outside.specs.Files.{is_ascending};

use crate::host_fault::HostFault;
use std::alloc::{AllocError, Global};
use std::cmp::Ordering;
use std::fs;
use std::fs::{DirEntry, Files, ReadDir};
use std::io::ErrorKind;

// how many files and folders a listing has at most
const MOST_ENTRIES: usize = 4_194_304;

// What a walk through folders has met. The paths are relative to its root.
#[derive(Drop)]
struct Walk {
    files: Vec<String>,
    // those that are still to be read
    folders: Vec<String>,
    // how many files and folders there were so far
    entries: usize,
    ghost few: { entries ≤ 4194304 },
}

/// The paths of all files below a folder, relative to it, sorted by bytes. A root that is missing or no folder has none; a
/// symbolic link is followed as the root and left out below it, as is all else that is neither file nor folder.
pub fn list_folder<R: Files>(
    runtime: &R,
    alloc: Global,
    root: &str,
) -> Result<Vec<String>, HostFault>
    ensures { IfOk result (λ paths. is_ascending (map string_bytes paths.items) ≡ true) }
{
    let mut walk = Walk {
        files: Vec::new(alloc),
        folders: Vec::new(alloc),
        entries: 0,
    };
    walk.take_root(runtime, alloc, root)?;
    while let Some(folder) = walk.folders.pop() {
        let path = joined(alloc, root, folder.as_str())?;
        let entries = fs::read_dir(&(runtime, alloc), path.as_str())?;
        walk.take_all(alloc, folder.as_str(), entries)?;
    }
    sorted(walk.files)
}

impl Walk {
    ghost use Rattle.host_outside.specs.Walks.{Grew};

    fn take_root<R: Files>(
        &mut self,
        runtime: &R,
        alloc: Global,
        root: &str,
    ) -> Result<(), HostFault>
        ensures { Grew self.old self.new }
    {
        match fs::read_dir(&(runtime, alloc), root) {
            Ok(entries) => self.take_all(alloc, "", entries),
            Err(fault) => match fault.kind() {
                ErrorKind::NotFound | ErrorKind::NotADirectory => Ok(()),
                _ => Err(HostFault::from(fault)),
            },
        }
    }

    // Takes the entries of a folder.
    fn take_all<R: Files>(
        &mut self,
        alloc: Global,
        folder: &str,
        entries: ReadDir<(&R, Global), Global>,
    ) -> Result<(), HostFault>
        ensures { Grew self.old self.new }
    {
        for entry in entries {
            let entry = entry?;
            self.take(alloc, folder, &entry)?;
        }
        Ok(())
    }

    // Takes an entry, where it is a file or a folder.
    fn take<R: Files>(
        &mut self,
        alloc: Global,
        folder: &str,
        entry: &DirEntry<(&R, Global), Global>,
    ) -> Result<(), HostFault>
        ensures { Grew self.old self.new }
    {
        let kind = entry.file_type()?;
        if kind.is_dir() {
            self.count()?;
            add(&mut self.folders, joined(alloc, folder, entry.file_name())?)?;
        } else if kind.is_file() {
            self.count()?;
            add(&mut self.files, joined(alloc, folder, entry.file_name())?)?;
        }
        Ok(())
    }

    // One more file or folder.
    fn count(&mut self) -> Result<(), HostFault>
        ensures ok { OnOk result (self.new.entries ≡ self.old.entries + 1) }
        ensures err { OnErr result (self.new.entries ≡ self.old.entries) }
        ensures folders { self.new.folders ≡ self.old.folders }
    {
        if self.entries >= MOST_ENTRIES {
            return Err(HostFault::Failed);
        }
        self.entries += 1;
        Ok(())
    }
}

fn add(paths: &mut Vec<String>, path: String) -> Result<(), AllocError>
    ensures { vec_len paths.new ≤ vec_len paths.old + 1 }
{
    Ok(paths.push(path)?)
}

// The path of a name in a folder. The root itself has no path.
fn joined(alloc: Global, folder: &str, name: &str) -> Result<String, AllocError> {
    if folder.is_empty() {
        return String::from_str(alloc, name);
    }
    let mut path = String::from_str(alloc, folder)?;
    path.push('/')?;
    path.push_str(name)?;
    Ok(path)
}

// The paths in their order. A path that came twice, as where a folder changes meanwhile, is a failed call.
fn sorted(paths: Vec<String>) -> Result<Vec<String>, HostFault>
    ensures { IfOk result (λ paths. is_ascending (map string_bytes paths.items) ≡ true) }
{
    let mut paths = paths;
    paths.sort_unstable();
    if are_ascending(paths.as_slice()) {
        Ok(paths)
    } else {
        Err(HostFault::Failed)
    }
}

fn are_ascending(paths: &[String]) -> bool
    ensures { IsTrue result → is_ascending (map string_bytes paths.now) ≡ true }
{
    for place in 1..paths.len() {
        match paths[place - 1].cmp(&paths[place]) {
            Ordering::Less => {}
            _ => return false,
        }
    }
    true
}
