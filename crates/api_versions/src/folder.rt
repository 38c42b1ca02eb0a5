//! The folder of one version, as a listing shows it.
ghost use Rattle.std.specs.Prelude.{◌≡◌, false, [], OnOk};
ghost use Rattle.api_versions.specs.Folders as meant;
ghost use Rattle.api_versions.specs.Seen.{folder_seen};
ghost use Rattle.api_versions.specs.steps.Adding.{with_path};

use aidl_base::OutOfMemory;
use std::alloc::Global;

/// What stands below the folder of a version.
#[derive(Drop)]
pub struct Folder {
    pub number: u32,
    /// whether any file stands there
    pub is_there: bool,
    /// the paths of its `.aidl` files, relative to it
    pub sources: Vec<String>,
}

impl Folder {
    /// A folder in which no file is known yet.
    pub fn empty(alloc: Global, number: u32) -> Folder
        ensures { folder_seen result ≡ record { number = number; is_there = false; sources = [] } }
    {
        Folder {
            number,
            is_there: false,
            sources: Vec::new(alloc),
        }
    }

    /// Adds a file by its path relative to the folder.
    pub fn add(&mut self, alloc: Global, path: &str) -> Result<(), OutOfMemory>
        ensures { OnOk result (folder_seen self.new ≡ with_path path.now (folder_seen self.old)) }
    {
        self.is_there = true;
        if is_source(path) {
            let path = String::from_str(alloc, path)?;
            self.sources.push(path)?;
        }
        Ok(())
    }
}

fn is_source(path: &str) -> bool
    ensures { result ≡ meant.is_source path.now }
{
    path.as_bytes().ends_with(b".aidl")
}
