//! Writes that are due, and making them in order.
ghost use Rattle.std.specs.Prelude.{map};
ghost use Rattle.aidl_outside.specs.Asks.{IsWrite};
ghost use Rattle.aidl_outside.specs.Causes.{StoreCause};
ghost use Rattle.aidl_outside.specs.Faults.{FailedIn, IfStoreFailed};
ghost use Rattle.api_versions.specs.Writes.{Left};
ghost use Rattle.api_versions.specs.Seen.{write_seen};

use aidl_base::Row;
use aidl_outside::{Store, StoreFault};
use std::alloc::Global;

/// Bytes that are to stand at a path.
#[derive(Drop)]
pub struct Write {
    pub path: String,
    pub bytes: Row<u8>,
}

/// Makes some writes, one after another, up to the first that fails, or for which memory is wanted.
pub fn write_all<S: Store>(alloc: Global, writes: &[Write], store: &mut S) -> Result<(), StoreFault>
    ensures wrote { Left (map write_seen writes.now)
        (S.kept store.old) (S.kept store.new) (S.fault_record store.new) result }
    ensures cause { StoreCause (S.fault_record store.old) (S.fault_record store.new) result }
    ensures failed { IfStoreFailed result (FailedIn (S.fault_record store.new) IsWrite) }
{
    for write in writes {
        match store.write(alloc, write.path.as_str(), write.bytes.as_slice()) {
            Ok(()) => {}
            Err(fault) => return Err(fault),
        }
    }
    Ok(())
}
