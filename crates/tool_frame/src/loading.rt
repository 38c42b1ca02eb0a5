//! Loading one file from a store, within a limit on its bytes.
ghost use Rattle.std.specs.Prelude.{◌≡◌, ◌≤◌, length, Option, IfOk};
ghost use Rattle.std.specs.Option.{option_map};
ghost use Rattle.aidl_base.specs.Limits.{limit_number};
ghost use Rattle.aidl_outside.specs.Asks.{AsksFile};
ghost use Rattle.aidl_outside.specs.Causes.{StoreCause};
ghost use Rattle.aidl_outside.specs.Faults.{FailedIn, IfStoreFailed};
ghost use Rattle.aidl_outside.specs.Told.{Tells};
ghost use Rattle.tool_frame.specs.Halts.{Loads};
ghost use Rattle.tool_frame.specs.Refusals.{file_at, there, within};
ghost use Rattle.tool_frame.specs.Results.{IsShort, held, loaded};
ghost use Rattle.tool_frame.specs.Seen.{store_seen};

use crate::halt::Halt;
use crate::printed::refusal;
use aidl_base::{Limit, LimitName};
use aidl_outside::{Store, StoreFault};
use std::alloc::Global;

/// The file at a path, or the limit that its bytes pass, which is refused later; else the line `no file PATH`.
pub fn load_existing<S: Store>(
    alloc: Global,
    which: LimitName,
    path: &str,
    store: &mut S,
) -> Result<Result<Vec<u8>, Limit>, Halt>
    ensures { let seen = store_seen S.Store in
        Loads (AsksFile which path.now) held (λ files. there path.now (file_at which files path.now))
        (seen store.old) (seen store.new) result }
{
    match load(alloc, which, path, store)? {
        Some(found) => Ok(found),
        None => Err(Halt::from(refusal(alloc, "no file ", path))),
    }
}

/// The file at a path, or the limit that its bytes pass; None where nothing stands there. A `StoreFault` where the call failed or memory was
/// wanted.
pub fn load<S: Store>(
    alloc: Global,
    which: LimitName,
    path: &str,
    store: &mut S,
) -> Result<Option<Result<Vec<u8>, Limit>>, StoreFault>
    ensures file { IfOk result (λ file. Tells (S.kept store.old) (λ files. loaded file
        ≡ file_at which files path.now)) }
    ensures short { IfOk result (IsShort which) }
    ensures unchanged { S.kept store.new ≡ S.kept store.old }
    ensures cause { StoreCause (S.fault_record store.old) (S.fault_record store.new) result }
    ensures failed { IfStoreFailed result
        (FailedIn (S.fault_record store.new) (AsksFile which path.now (S.kept store.old))) }
{
    match store.read(alloc, path, which.number() as usize) {
        Ok(Some(bytes)) => Ok(Some(within_limit(which, bytes))),
        Ok(None) => Ok(None),
        Err(fault) => Err(fault),
    }
}

/// Bytes, where they don't pass a limit.
pub fn within_limit(which: LimitName, bytes: Vec<u8>) -> Result<Vec<u8>, Limit>
    ensures bytes { held result ≡ within which bytes.items }
    ensures short { IfOk result (λ held. length held.items ≤ limit_number which) }
{
    if bytes.len() > which.number() as usize {
        return Err(Limit { which });
    }
    Ok(bytes)
}
