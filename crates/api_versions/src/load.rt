//! One file of a store, up to the limit on its bytes.
ghost use Rattle.std.specs.Prelude.{◌≡◌, List, ℕ, Option};
ghost use Rattle.std.specs.Option.{option_map};
ghost use Rattle.aidl_base.specs.declared.limit.LimitName.TheVariants.{FileBytes};
ghost use Rattle.aidl_outside.specs.Asks.{AsksFile};
ghost use Rattle.aidl_outside.specs.Files.{path_below};
ghost use Rattle.aidl_outside.specs.Told.{Tells};
ghost use Rattle.api_versions.specs.Asks.{FailedCall};
ghost use Rattle.api_versions.specs.Answers.{Gives, ReadCause};
ghost use Rattle.api_versions.specs.Versions.{file_at, within};

use crate::fault::{VersionsFault, limit_passed, read_fault};
use aidl_base::{LimitName, Row};
use aidl_outside::{Store, path_below};
use std::alloc::Global;

/// The file at a path below a folder, where one stands there. A file of more than 262,144 bytes is refused.
pub fn load_below<S: Store>(
    alloc: Global,
    folder: &str,
    path: &str,
    store: &mut S,
) -> Result<Option<Row<u8>>, VersionsFault>
    ensures told { Tells (S.kept store.old)
        (λ files. Gives (file_at files (path_below folder.now path.now)) result) }
    ensures unchanged { S.kept store.new ≡ S.kept store.old }
    ensures cause { ReadCause (S.fault_record store.old) (S.fault_record store.new) result }
    ensures failed { FailedCall
        (AsksFile FileBytes (path_below folder.now path.now) (S.kept store.old))
        (S.fault_record store.new) result }
{
    match path_below(alloc, folder, path) {
        Ok(whole) => load(alloc, whole.as_str(), store),
        Err(_) => Err(VersionsFault::OutOfMemory),
    }
}

// The file at a path.
fn load<S: Store>(
    alloc: Global,
    path: &str,
    store: &mut S,
) -> Result<Option<Row<u8>>, VersionsFault>
    ensures told { Tells (S.kept store.old) (λ files. Gives (file_at files path.now) result) }
    ensures unchanged { S.kept store.new ≡ S.kept store.old }
    ensures cause { ReadCause (S.fault_record store.old) (S.fault_record store.new) result }
    ensures failed { FailedCall (AsksFile FileBytes path.now (S.kept store.old))
        (S.fault_record store.new) result }
{
    match store.read(alloc, path, LimitName::FileBytes.number() as usize) {
        Ok(file) => held(file),
        Err(fault) => Err(read_fault(fault)),
    }
}

// What was read, where it isn't too long.
fn held(file: Option<Vec<u8>>) -> Result<Option<Row<u8>>, VersionsFault>
    ensures { result ≡ within (option_map {U = List ℕ} (λ bytes. bytes.items) file) }
{
    let Some(bytes) = file else {
        return Ok(None);
    };
    if bytes.len() > LimitName::FileBytes.number() as usize {
        return Err(limit_passed(LimitName::FileBytes));
    }
    Ok(Some(Row::from_vec(bytes)))
}
