//! Writing a file of the host.

use crate::host_fault::HostFault;
use std::fs;
use std::fs::{File, Files, OpenOptions};
use std::io::{ErrorKind, Write};

/// Sets the file at a path whose folder is there. What stands there and isn't a file itself, as a link to one, is a failed
/// call. Once the file is open, any fault is a failed call, since what stood there may be gone.
pub fn write_file<R: Files>(runtime: &R, path: &str, bytes: &[u8]) -> Result<(), HostFault> {
    let mut file = create(runtime, path)?;
    match file.write_all(bytes) {
        Ok(()) => Ok(()),
        Err(_) => Err(HostFault::Failed),
    }
}

// The file at the path, new or emptied. A new one is made where nothing stands, not even a link.
fn create<R: Files>(runtime: &R, path: &str) -> Result<R::File, HostFault> {
    match OpenOptions::new()
        .write(true)
        .create_new(true)
        .open(runtime, path)
    {
        Err(fault) if fault.kind() == ErrorKind::AlreadyExists => emptied(runtime, path),
        answer => Ok(answer?),
    }
}

fn emptied<R: Files>(runtime: &R, path: &str) -> Result<R::File, HostFault> {
    if fs::symlink_metadata(runtime, path)?.is_file() {
        Ok(File::create(runtime, path)?)
    } else {
        Err(HostFault::Failed)
    }
}
