//! The host's folders as a store.
ghost use Rattle.std.specs.Prelude.{◌≡◌, ◌≤◌, None, Err};
ghost use Rattle.aidl_outside.specs.Causes.{StoreCause};
ghost use Rattle.aidl_outside.specs.Faults.{untold};
ghost use Rattle.host_outside.specs.HostFaults.{store_fault};

use crate::host_fault::HostFault;
use crate::last_folder::LastFolder;
use crate::list_folder::list_folder;
use crate::names::is_named;
use crate::read_file::read_file;
use crate::write_file::write_file;
use aidl_outside::{Store, StoreFault};
use std::alloc::Global;
use std::fs::Files;

/// The folders of the host. It is a trusted edge and tells nothing.
#[derive(Drop)]
pub struct FolderStore<'a, R: Files> {
    runtime: &'a R,
    // the paths that may be links
    names: &'a [String],
    last: LastFolder,
    faults: u64,
}

impl<'a, R: Files> FolderStore<'a, R> {
    /// The files that the runtime reaches, with no fault counted. What the names name may be a link, and so may each folder on
    /// the way to it; below them a listing leaves links out, and a write follows none.
    pub fn new(runtime: &'a R, names: &'a [String]) -> FolderStore<'a, R>
        ensures { result.faults ≡ 0 }
    {
        FolderStore {
            runtime,
            names,
            last: LastFolder::new(),
            faults: 0,
        }
    }

    // Sets a file, once its folder is there.
    fn set(&mut self, alloc: Global, path: &str, bytes: &[u8]) -> Result<(), HostFault>
        ensures { self.new.faults ≡ self.old.faults }
    {
        self.last.enter(self.runtime, alloc, self.names, path)?;
        write_file(self.runtime, path, bytes)
    }

    // Counts a failed call. Want of memory is none.
    fn counted(&mut self, fault: HostFault) -> StoreFault
        ensures cause { StoreCause {T = Unit {0}}
            (untold self.old.faults) (untold self.new.faults) (Err result) }
        ensures never_falls { self.old.faults ≤ self.new.faults }
        ensures answer { result ≡ store_fault fault }
    {
        match fault {
            HostFault::OutOfMemory => StoreFault::OutOfMemory,
            HostFault::Failed => {
                self.faults = self.faults.saturating_add(1);
                StoreFault::Failed
            }
        }
    }
}

impl<'a, R: Files> Store for FolderStore<'a, R> {
    ghost kept = { λ _. None };

    ghost fault_record = { λ store. untold store.faults };

    /// A symbolic link is followed as the root and left out below it. More than 4,194,304 files and folders, and a name that
    /// isn't UTF-8, are a failed call.
    fn list(&mut self, alloc: Global, root: &str) -> Result<Vec<String>, StoreFault> {
        match list_folder(self.runtime, alloc, root) {
            Ok(paths) => Ok(paths),
            Err(fault) => Err(self.counted(fault)),
        }
    }

    /// None where nothing stands at the path, also where a part of it is a file. A folder, and a path that can't exist,
    /// are a failed call.
    fn read(
        &mut self,
        alloc: Global,
        path: &str,
        most: usize,
    ) -> Result<Option<Vec<u8>>, StoreFault> {
        match read_file(self.runtime, alloc, path, is_named(self.names, path), most) {
            Ok(file) => Ok(file),
            Err(fault) => Err(self.counted(fault)),
        }
    }

    /// Makes the folders that are missing on the way, and empties the file before it writes.
    fn write(&mut self, alloc: Global, path: &str, bytes: &[u8]) -> Result<(), StoreFault> {
        match self.set(alloc, path, bytes) {
            Ok(()) => Ok(()),
            Err(fault) => Err(self.counted(fault)),
        }
    }

    fn faults(&self) -> u64 {
        self.faults
    }
}
