//! Rehashing: the text of the second recipe for each version whose `.hash` has another.
ghost use Rattle.std.specs.Prelude.{◌≡◌, ◌++◌, [], ◌∷◌, map, IfOk, OnOk, Some, None, string_bytes};
ghost use Rattle.aidl_outside.specs.Told.{Tells};
ghost use Rattle.aidl_outside.specs.Asks.{AsksNothing};
ghost use Rattle.api_freeze.specs.Causes.{RehashCause, RehashFailed};
ghost use Rattle.api_freeze.specs.Rehash as meant;
ghost use Rattle.api_freeze.specs.Rehash.{GivesNumbers, Left};
ghost use Rattle.api_versions.specs.Asks.{AsksVersions};
ghost use Rattle.api_versions.specs.Whole as whole;
ghost use Rattle.api_versions.specs.Seen.{write_seen};

use crate::fault::RehashFault;
use aidl_base::{OutOfMemory, Row};
use aidl_outside::Store;
use api_versions::{
    Version, Write, defined_text, first_torn, hash_path, is_current, versions, write_all,
};
use std::alloc::Global;

/// Writes the text of the second recipe into the `.hash` of each version that has another, in order of versions, and answers the numbers
/// of these versions, ascending (own). It refuses as `versions` does, then `Torn` for the least version that isn't whole, each before any
/// write, and `Write`.
pub fn rehash<S: Store>(alloc: Global, store: &mut S, api: &str) -> Result<Row<u32>, RehashFault>
    ensures told { Tells (S.kept store.old) (λ files.
        GivesNumbers (meant.rehash_at files api.now) result) }
    ensures wrote { Tells (S.kept store.old) (λ files.
        Left (meant.rehash_writes files api.now)
        (Some files) (S.kept store.new) (S.fault_record store.new) result) }
    ensures untold { S.kept store.old ≡ None → S.kept store.new ≡ None }
    ensures cause { RehashCause (S.fault_record store.old) (S.fault_record store.new) result }
    ensures failed { RehashFailed (AsksVersions api.now (S.kept store.old))
        (S.fault_record store.new) result }
{
    match versions(alloc, store, api) {
        Ok(versions) => rehash_all(alloc, api, versions.as_slice(), store),
        Err(fault) => Err(RehashFault::Versions(fault)),
    }
}

// The same for versions that are read.
fn rehash_all<S: Store>(
    alloc: Global,
    api: &str,
    versions: &[Version],
    store: &mut S,
) -> Result<Row<u32>, RehashFault>
    ensures defined { GivesNumbers (meant.rehash_of versions.now) result }
    ensures wrote { Left (meant.whole_writes api.now versions.now)
        (S.kept store.old) (S.kept store.new) (S.fault_record store.new) result }
    ensures cause { RehashCause (S.fault_record store.old) (S.fault_record store.new) result }
    ensures failed { RehashFailed (AsksNothing None) (S.fault_record store.new) result }
{
    let torn = first_torn(alloc, versions)?;
    match torn {
        None => rehash_whole(alloc, api, versions, store),
        Some(torn) => Err(RehashFault::Torn(torn)),
    }
}

// The same for versions that are whole.
fn rehash_whole<S: Store>(
    alloc: Global,
    api: &str,
    versions: &[Version],
    store: &mut S,
) -> Result<Row<u32>, RehashFault>
    requires { whole.first_torn versions.now ≡ None }
    ensures defined { GivesNumbers (meant.rehash_of versions.now) result }
    ensures wrote { Left (meant.whole_writes api.now versions.now)
        (S.kept store.old) (S.kept store.new) (S.fault_record store.new) result }
    ensures cause { RehashCause (S.fault_record store.old) (S.fault_record store.new) result }
    ensures failed { RehashFailed (AsksNothing None) (S.fault_record store.new) result }
{
    let stale = stale_of(alloc, api, versions)?;
    match write_all(alloc, stale.writes.as_slice(), store) {
        Ok(()) => Ok(stale.numbers),
        Err(fault) => Err(RehashFault::Write(fault)),
    }
}

// The versions that have another text: their numbers, and the writes that are due.
#[derive(Drop)]
struct Stale {
    numbers: Row<u32>,
    writes: Vec<Write>,
}

fn stale_of(alloc: Global, api: &str, versions: &[Version]) -> Result<Stale, OutOfMemory>
    ensures numbers { IfOk result (λ stale. stale.numbers ≡ meant.stale_numbers versions.now) }
    ensures writes { IfOk result (λ stale.
        map write_seen stale.writes.items ≡ meant.hash_writes api.now versions.now) }
{
    let mut stale = Stale {
        numbers: Row::new(alloc),
        writes: Vec::new(alloc),
    };
    for version in versions {
        add_stale(alloc, api, version, &mut stale)?;
    }
    Ok(stale)
}

fn add_stale(
    alloc: Global,
    api: &str,
    version: &Version,
    stale: &mut Stale,
) -> Result<(), OutOfMemory>
    ensures numbers { OnOk result (stale.new.numbers
        ≡ stale.old.numbers ++ meant.stale_numbers (version.now ∷ [])) }
    ensures writes { OnOk result (map write_seen stale.new.writes.items
        ≡ map write_seen stale.old.writes.items ++ meant.hash_writes api.now (version.now ∷ [])) }
{
    if is_current(alloc, version)? {
        return Ok(());
    }
    let write = hash_write(alloc, api, version)?;
    stale.numbers.push(version.number)?;
    stale.writes.push(write)?;
    Ok(())
}

// The text of the second recipe at the `.hash` of a version.
fn hash_write(alloc: Global, api: &str, version: &Version) -> Result<Write, OutOfMemory>
    ensures { IfOk result (λ write. write_seen write ≡ meant.hash_write api.now version.now) }
{
    let path = hash_path(alloc, api, version.number)?;
    let text = defined_text(alloc, version)?;
    Ok(Write {
        path,
        bytes: Row::from_vec(text),
    })
}
