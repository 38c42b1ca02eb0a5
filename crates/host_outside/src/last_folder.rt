//! Making the folders on the way to a file that is written.

use crate::host_fault::HostFault;
use crate::names::{is_within, root_length};
use std::alloc::Global;
use std::fs::Files;
use std::{fs, io};

/// The folder that a file was written to last. It was there, and no part of it below a name was a link.
#[derive(Drop)]
pub struct LastFolder {
    path: Option<String>,
}

impl LastFolder {
    /// None yet.
    pub fn new() -> LastFolder {
        LastFolder { path: None }
    }

    /// Goes to the folder of a file, and makes what is missing of it. A part below the shortest name that isn't a folder
    /// itself, as a link to one, is a failed call. Where the folder is the last one nothing is asked of the system.
    pub fn enter<R: Files>(
        &mut self,
        runtime: &R,
        alloc: Global,
        names: &[String],
        file: &str,
    ) -> Result<(), HostFault> {
        let Some((folder, _)) = file.rsplit_once('/') else {
            return Ok(());
        };
        let last = self.path.as_ref().map_or("", |path| path.as_str());
        if last != folder {
            make_parts(runtime, folder, root_length(names, file), last)?;
            self.path = Some(String::from_str(alloc, folder)?);
        }
        Ok(())
    }
}

// Makes the parts of a folder from its root on, but for those that the last folder has too.
fn make_parts<R: Files>(
    runtime: &R,
    folder: &str,
    root: usize,
    last: &str,
) -> Result<(), HostFault> {
    for end in root..folder.len() + 1 {
        if let Some(part) = part_up_to(folder, end)
            && !is_within(last, part)
        {
            if end == root {
                fs::create_dir_all(runtime, part)?;
            } else {
                make_folder(runtime, part)?;
            }
        }
    }
    Ok(())
}

// The folder above that ends there, or the folder itself.
fn part_up_to(folder: &str, end: usize) -> Option<&str> {
    match folder.split_at_checked(end) {
        Some((part, rest)) if end > 0 && (rest.is_empty() || rest.starts_with('/')) => Some(part),
        _ => None,
    }
}

// Makes a folder. Where that fails a folder that stands there will do, and no link to one.
fn make_folder<R: Files>(runtime: &R, path: &str) -> io::Result<()> {
    match fs::create_dir(runtime, path) {
        Err(fault) if !is_folder(runtime, path) => Err(fault),
        _ => Ok(()),
    }
}

fn is_folder<R: Files>(runtime: &R, path: &str) -> bool {
    match fs::symlink_metadata(runtime, path) {
        Ok(found) => found.is_dir(),
        Err(_) => false,
    }
}
