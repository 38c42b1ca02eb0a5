//! Freezing: the next version of an API, written to a store.
ghost use Rattle.std.specs.Prelude.{◌≡◌, ◌-◌, length, map, take, Some, None, IfErr, IfOk};
ghost use Rattle.aidl_outside.specs.Told.{Tells};
ghost use Rattle.api_freeze.specs.Chains.{FollowsEachAt};
ghost use Rattle.api_freeze.specs.Freeze.{Freezes, FreezesAt, IsRead, hash_digits, version_writes};
ghost use Rattle.api_freeze.specs.Freeze as meant;
ghost use Rattle.aidl_outside.specs.Asks.{AsksNothing, IsWrite};
ghost use Rattle.aidl_outside.specs.Causes.{StoreCause};
ghost use Rattle.aidl_outside.specs.Faults.{FailedIn, IfStoreFailed};
ghost use Rattle.api_freeze.specs.Causes.{Cause, FailedCall};
ghost use Rattle.api_hash.specs.HashText.{hash_text};
ghost use Rattle.api_hash.specs.declared.hashing.Recipe.TheVariants.{Two};
ghost use Rattle.api_versions.specs.Asks.{AsksVersions};
ghost use Rattle.api_versions.specs.Versions.{versions_at};
ghost use Rattle.api_versions.specs.Writes.{Left};
ghost use Rattle.api_versions.specs.Seen.{write_seen};

use crate::fault::FreezeFault;
use crate::following::{Next, prepare};
use aidl_base::{OutOfMemory, Row, SourceFile, Text};
use aidl_outside::{Store, StoreFault, path_below};
use aidl_schema::Schema;
use api_hash::{Recipe, hash_text};
use api_versions::{Version, Write, hash_path, text_of, version_folder, versions, write_all};
use std::alloc::Global;

/// A version that was frozen: its number, and the 40 digits of its `.hash`.
#[derive(Drop)]
pub struct Frozen {
    pub version: u32,
    pub hash: Text,
}

/// Writes the dump of a schema as the next version of an API (own): the files in path order, then `.hash`, by the second recipe for the
/// new number. It refuses as `versions` does, by `Versions`; then `Torn` for the least version that isn't whole; what the check answers for
/// the latest version's files, a limit as `Limit` and any other fault as `Unreadable`; `Unchanged`; `Incompatible`; the limit `versions` for
/// a new number 10,000; and the limit that the check answers for the dump. All these come before any write, and leave the store as it was.
/// `Write` comes after the writes before the one that failed, which changes its path at most, or after any where memory was wanted.
/// On Ok what is written is a checked tree with this schema, and no evolution rule is broken from the latest version to it; nor is one from
/// any earlier version from which on none is broken from each version to the next one (`FollowsEach`).
pub fn freeze<S: Store>(
    alloc: Global,
    schema: &Schema,
    store: &mut S,
    api: &str,
) -> Result<Frozen, FreezeFault>
    ensures told { Tells (S.kept store.old) (λ files.
        FreezesAt api.now (versions_at files api.now) schema.now.decls
        (Some files) (S.kept store.new) (S.fault_record store.new) result) }
    ensures chains { Tells (S.kept store.old) (λ files. IfOk result (λ frozen.
        FollowsEachAt (versions_at files api.now) schema.now.decls)) }
    ensures untold { S.kept store.old ≡ None → S.kept store.new ≡ None }
    ensures read { IfErr result IsRead }
    ensures cause { Cause (S.fault_record store.old) (S.fault_record store.new) result }
    ensures failed { FailedCall (AsksVersions api.now (S.kept store.old))
        (S.fault_record store.new) result }
{
    match versions(alloc, store, api) {
        Ok(versions) => freeze_next(alloc, schema, store, api, versions),
        Err(fault) => Err(FreezeFault::Versions(fault)),
    }
}

// The same for versions that are read.
fn freeze_next<S: Store>(
    alloc: Global,
    schema: &Schema,
    store: &mut S,
    api: &str,
    versions: Row<Version>,
) -> Result<Frozen, FreezeFault>
    ensures answer { Freezes api.now versions schema.now.decls
        (S.kept store.old) (S.kept store.new) (S.fault_record store.new) result }
    ensures read { IfErr result IsRead }
    ensures cause { Cause (S.fault_record store.old) (S.fault_record store.new) result }
    ensures failed { FailedCall (AsksNothing None) (S.fault_record store.new) result }
{
    let next = prepare(alloc, schema, versions)?;
    match write_next(alloc, api, next, store) {
        Ok(frozen) => Ok(frozen),
        Err(fault) => Err(FreezeFault::Write(fault)),
    }
}

// Writes the next version.
fn write_next<S: Store>(
    alloc: Global,
    api: &str,
    next: Next,
    store: &mut S,
) -> Result<Frozen, StoreFault>
    ensures version { IfOk result (λ frozen. frozen.version ≡ next.number) }
    ensures hash { IfOk result (λ frozen. frozen.hash ≡ hash_digits next.files next.number) }
    ensures wrote { Left (version_writes api.now next.number next.files)
        (S.kept store.old) (S.kept store.new) (S.fault_record store.new) result }
    ensures cause { StoreCause (S.fault_record store.old) (S.fault_record store.new) result }
    ensures failed { IfStoreFailed result (FailedIn (S.fault_record store.new) IsWrite) }
{
    let Ok(due) = due_of(alloc, api, next) else {
        return Err(StoreFault::OutOfMemory);
    };
    match write_all(alloc, due.writes.as_slice(), store) {
        Ok(()) => Ok(due.frozen),
        Err(fault) => Err(fault),
    }
}

// What is to be answered, and the writes before it.
#[derive(Drop)]
struct Due {
    frozen: Frozen,
    writes: Vec<Write>,
}

fn due_of(alloc: Global, api: &str, next: Next) -> Result<Due, OutOfMemory>
    ensures version { IfOk result (λ due. due.frozen.version ≡ next.number) }
    ensures hash { IfOk result (λ due. due.frozen.hash ≡ hash_digits next.files next.number) }
    ensures writes { IfOk result (λ due.
        map write_seen due.writes.items ≡ version_writes api.now next.number next.files) }
{
    let version = next.number;
    let text = hash_text(alloc, next.files.as_slice(), Recipe::Two(version))?;
    let hash = text_of(alloc, without_last(text.as_slice()))?;
    let writes = next_writes(alloc, api, next, Row::from_vec(text))?;
    Ok(Due {
        frozen: Frozen { version, hash },
        writes,
    })
}

// The writes of the next version, whose `.hash` has these bytes.
fn next_writes(
    alloc: Global,
    api: &str,
    next: Next,
    hash: Row<u8>,
) -> Result<Vec<Write>, OutOfMemory>
    requires { hash ≡ hash_text next.files (Two next.number) }
    ensures { IfOk result (λ writes.
        map write_seen writes.items ≡ version_writes api.now next.number next.files) }
{
    let folder = version_folder(alloc, api, next.number)?;
    let path = hash_path(alloc, api, next.number)?;
    let mut writes = file_writes(alloc, folder.as_str(), next.files)?;
    writes.push(Write { path, bytes: hash })?;
    Ok(writes)
}

// A text without its last byte.
fn without_last(text: &[u8]) -> &[u8]
    ensures { result.now ≡ take (length text.now - 1) text.now }
{
    &text[..text.len().saturating_sub(1)]
}

// The writes of some files below a folder.
fn file_writes(
    alloc: Global,
    folder: &str,
    files: Row<SourceFile>,
) -> Result<Vec<Write>, OutOfMemory>
    ensures { IfOk result (λ writes.
        map write_seen writes.items ≡ map (meant.file_write folder.now) files) }
{
    let mut writes = Vec::new(alloc);
    for file in files.into_vec() {
        writes.push(file_write(alloc, folder, file)?)?;
    }
    Ok(writes)
}

fn file_write(alloc: Global, folder: &str, file: SourceFile) -> Result<Write, OutOfMemory>
    ensures { IfOk result (λ write. write_seen write ≡ meant.file_write folder.now file) }
{
    let path = path_below(alloc, folder, file.path.as_str())?;
    Ok(Write {
        path,
        bytes: file.into_bytes(),
    })
}
