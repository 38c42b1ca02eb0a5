//! All versions of an API, read from a store.
ghost use Rattle.std.specs.Prelude.{◌≡◌, length, map, true, IfOk, Ok, string_bytes};
ghost use Rattle.std.specs.List.{list_all, range_with_len};
ghost use Rattle.aidl_base.specs.declared.limit.LimitName.TheVariants.{FileBytes};
ghost use Rattle.aidl_outside.specs.Asks.{AsksInOrder};
ghost use Rattle.aidl_outside.specs.Faults.{listing as lists};
ghost use Rattle.aidl_outside.specs.Entries.{path_of};
ghost use Rattle.aidl_outside.specs.Files.{is_ascending, listing};
ghost use Rattle.aidl_outside.specs.Told.{Tells};
ghost use Rattle.api_versions.specs.Asks.{AsksFolders, AsksVersions, FailedCall, paths_read};
ghost use Rattle.api_versions.specs.Answers.{Gives, GivesAs, ReadCause};
ghost use Rattle.api_versions.specs.Versions as meant;
ghost use Rattle.api_versions.specs.Versions.{AreNumbered, are_ascending};
ghost use Rattle.api_versions.specs.Seen.{folder_seen};

use crate::fault::{VersionsFault, read_fault};
use crate::folder::Folder;
use crate::load::load_below;
use crate::paths::version_folder;
use crate::sources::load_sources;
use crate::version::Version;
use crate::whole_folders::{folders_in, missing, present};
use aidl_base::Row;
use aidl_outside::Store;
use std::alloc::Global;

/// All versions of an API, in order of their numbers (own). A file below it belongs to version n where its first path part is the
/// decimal number n, 1 or more, without a leading zero, and isn't its whole path; all others are ignored. Refused are, in this order:
/// the limits `versions`, `files` and `file-bytes`, each over all versions, and numbers that aren't 1 to n. A listing or a reading that
/// failed is `ReadFault`.
pub fn versions<S: Store>(
    alloc: Global,
    store: &mut S,
    api: &str,
) -> Result<Row<Version>, VersionsFault>
    ensures told { Tells (S.kept store.old)
        (λ files. Gives (meant.versions_at files api.now) result) }
    ensures numbered { IfOk result AreNumbered }
    ensures ascending { IfOk result (λ versions. are_ascending versions ≡ true) }
    ensures unchanged { S.kept store.new ≡ S.kept store.old }
    ensures cause { ReadCause (S.fault_record store.old) (S.fault_record store.new) result }
    ensures failed { FailedCall (AsksVersions api.now (S.kept store.old))
        (S.fault_record store.new) result }
{
    let paths = listed(alloc, api, store)?;
    match folders_in(alloc, paths.as_slice()) {
        Ok(folders) => load_all(alloc, api, folders, store),
        Err(fault) => Err(fault),
    }
}

// The paths of all files below an API.
fn listed<S: Store>(alloc: Global, api: &str, store: &mut S) -> Result<Vec<String>, VersionsFault>
    ensures told { Tells (S.kept store.old) (λ files.
        GivesAs (λ paths. map string_bytes paths.items) (Ok (listing api.now files)) result) }
    ensures ascending { IfOk result (λ paths. is_ascending (map string_bytes paths.items) ≡ true) }
    ensures unchanged { S.kept store.new ≡ S.kept store.old }
    ensures cause { ReadCause (S.fault_record store.old) (S.fault_record store.new) result }
    ensures failed { FailedCall (λ call. call ≡ lists api.now) (S.fault_record store.new) result }
{
    match store.list(alloc, api) {
        Ok(paths) => Ok(paths),
        Err(fault) => Err(read_fault(fault)),
    }
}

// The versions in all folders from 1 on, where none is missing.
fn load_all<S: Store>(
    alloc: Global,
    api: &str,
    folders: Vec<Folder>,
    store: &mut S,
) -> Result<Row<Version>, VersionsFault>
    ensures told { Tells (S.kept store.old)
        (λ files. Gives (meant.all_in files api.now (map folder_seen folders.items)) result) }
    ensures numbered { map (λ f. f.number) (map folder_seen folders.items)
        ≡ range_with_len 1 (length folders.items)
        → IfOk result AreNumbered }
    ensures ascending { list_all (λ f. is_ascending f.sources)
        (map folder_seen folders.items) ≡ true
        → IfOk result (λ versions. are_ascending versions ≡ true) }
    ensures unchanged { S.kept store.new ≡ S.kept store.old }
    ensures cause { ReadCause (S.fault_record store.old) (S.fault_record store.new) result }
    ensures failed { FailedCall
        (AsksFolders api.now (meant.present (map folder_seen folders.items)) (S.kept store.old))
        (S.fault_record store.new) result }
{
    let missing = missing(folders.as_slice());
    let versions = load_versions(alloc, api, present(folders), store)?;
    complete(missing, versions)
}

// The versions in some folders.
fn load_versions<S: Store>(
    alloc: Global,
    api: &str,
    folders: Vec<Folder>,
    store: &mut S,
) -> Result<Row<Version>, VersionsFault>
    ensures told { Tells (S.kept store.old)
        (λ files. Gives (meant.versions_in files api.now (map folder_seen folders.items)) result) }
    ensures numbers { IfOk result (λ versions.
        map (λ v. v.number) versions ≡ map (λ f. f.number) (map folder_seen folders.items)) }
    ensures ascending { list_all (λ f. is_ascending f.sources)
        (map folder_seen folders.items) ≡ true
        → IfOk result (λ versions. are_ascending versions ≡ true) }
    ensures unchanged { S.kept store.new ≡ S.kept store.old }
    ensures cause { ReadCause (S.fault_record store.old) (S.fault_record store.new) result }
    ensures failed { FailedCall
        (AsksFolders api.now (map folder_seen folders.items) (S.kept store.old))
        (S.fault_record store.new) result }
{
    let mut versions = Row::new(alloc);
    for folder in folders {
        let version = load_version(alloc, api, folder, store)?;
        versions.push(version)?;
    }
    Ok(versions)
}

// The version in a folder.
fn load_version<S: Store>(
    alloc: Global,
    api: &str,
    folder: Folder,
    store: &mut S,
) -> Result<Version, VersionsFault>
    ensures told { Tells (S.kept store.old)
        (λ files. Gives (meant.version_at files api.now (folder_seen folder)) result) }
    ensures number { IfOk result (λ version. version.number ≡ folder.number) }
    ensures ascending { is_ascending (map string_bytes folder.sources.items) ≡ true
        → IfOk result (λ version. is_ascending (map path_of version.files) ≡ true) }
    ensures unchanged { S.kept store.new ≡ S.kept store.old }
    ensures cause { ReadCause (S.fault_record store.old) (S.fault_record store.new) result }
    ensures failed { FailedCall
        (AsksInOrder FileBytes (paths_read api.now (folder_seen folder)) (S.kept store.old))
        (S.fault_record store.new) result }
{
    let path = version_folder(alloc, api, folder.number)?;
    let files = load_sources(alloc, path.as_str(), folder.sources, store)?;
    let kept = load_below(alloc, path.as_str(), ".hash", store)?;
    Ok(Version {
        number: folder.number,
        files,
        kept,
    })
}

// The versions, where no number is missing.
fn complete(missing: Option<u32>, versions: Row<Version>) -> Result<Row<Version>, VersionsFault>
    ensures { result ≡ meant.complete missing versions }
{
    match missing {
        None => Ok(versions),
        Some(missing) => Err(VersionsFault::BadVersions { missing }),
    }
}
