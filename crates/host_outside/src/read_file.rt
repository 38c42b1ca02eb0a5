//! Reading a file of the host, up to a number of bytes.
ghost use Rattle.std.specs.Prelude.{◌≡◌, ◌≤◌, ◌<◌, ◌+◌, IfOk, IfSome, length, take};
ghost use Rattle.aidl_outside.specs.Files.{IsWithin};

use crate::host_fault::HostFault;
use std::alloc::Global;
use std::fs::{File, Files, Metadata};
use std::io::{ErrorKind, Read};
use std::{fs, io};

/// The file at a path, and of one longer than `most` bytes its first `most + 1`. None where nothing stands there. A path
/// that the caller named may be a link, a fifo or a device; at any other what isn't a file itself is a failed call, and
/// isn't opened.
pub fn read_file<R: Files>(
    runtime: &R,
    alloc: Global,
    path: &str,
    is_named: bool,
    most: usize,
) -> Result<Option<Vec<u8>>, HostFault>
    requires { most < usize.MAX }
    ensures { IfOk result (IsWithin most) }
{
    match metadata(runtime, path, is_named) {
        Ok(found) if found.is_file() || is_named => {
            let file = File::open(runtime, path)?;
            let expected = expected_length(&found, most);
            Ok(Some(read_front(alloc, file, expected, most)?))
        }
        Ok(_) => Err(HostFault::Failed),
        Err(fault) => match fault.kind() {
            ErrorKind::NotFound | ErrorKind::NotADirectory => Ok(None),
            _ => Err(HostFault::from(fault)),
        },
    }
}

// What stands at a path; links are followed where the caller named it.
fn metadata<R: Files>(runtime: &R, path: &str, is_named: bool) -> io::Result<Metadata> {
    if is_named {
        fs::metadata(runtime, path)
    } else {
        fs::symlink_metadata(runtime, path)
    }
}

// The length that the system says, at most `most`, and one byte more.
fn expected_length(found: &Metadata, most: usize) -> usize
    requires { most < usize.MAX }
    ensures { result ≤ most + 1 }
{
    most.min(usize::try_from(found.len()).unwrap_or(most)) + 1
}

// What the reader still has, at most `most + 1` bytes of it. Room is taken once for as many as are expected.
fn read_front<F: Read + Drop>(
    alloc: Global,
    file: F,
    expected: usize,
    most: usize,
) -> Result<Vec<u8>, HostFault>
    requires { most < usize.MAX }
    ensures within { IfOk result (λ bytes. length bytes.items ≤ most + 1) }
    ensures front { IfOk result (λ bytes. IfSome (F.remaining file) (λ left. bytes.items
        ≡ take (most + 1) left)) }
{
    let mut bytes = Vec::with_capacity(alloc, expected)?;
    file.take(most as u64 + 1).read_to_end(&mut bytes)?;
    bytes.truncate(most + 1);
    Ok(bytes)
}
