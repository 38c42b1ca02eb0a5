//! The source files of a version, read from a store.
ghost use Rattle.std.specs.Prelude.{◌≡◌, ◌++◌, map, true, IfOk, OnOk, string_bytes};
ghost use Rattle.aidl_base.specs.declared.limit.LimitName.TheVariants.{FileBytes};
ghost use Rattle.aidl_outside.specs.Entries.{path_of};
ghost use Rattle.aidl_outside.specs.Files.{is_ascending, path_below};
ghost use Rattle.aidl_outside.specs.Told.{Tells};
ghost use Rattle.aidl_outside.specs.Asks.{AsksInOrder};
ghost use Rattle.api_versions.specs.Asks.{FailedCall};
ghost use Rattle.api_versions.specs.Answers.{Gives, ReadCause};
ghost use Rattle.api_versions.specs.Versions as meant;

use crate::fault::VersionsFault;
use crate::load::load_below;
use aidl_base::{OutOfMemory, Row, SourceFile, Text};
use aidl_outside::Store;
use std::alloc::Global;

/// The files at some paths below a folder, up to the first that is too long.
pub fn load_sources<S: Store>(
    alloc: Global,
    folder: &str,
    paths: Vec<String>,
    store: &mut S,
) -> Result<Row<SourceFile>, VersionsFault>
    ensures told { Tells (S.kept store.old)
        (λ files. Gives (meant.sources_at files folder.now (map string_bytes paths.items)) result) }
    ensures ascending { is_ascending (map string_bytes paths.items) ≡ true
        → IfOk result (λ files. is_ascending (map path_of files) ≡ true) }
    ensures unchanged { S.kept store.new ≡ S.kept store.old }
    ensures cause { ReadCause (S.fault_record store.old) (S.fault_record store.new) result }
    ensures failed { FailedCall
        (AsksInOrder FileBytes (map (path_below folder.now) (map string_bytes paths.items)) (S.kept store.old))
        (S.fault_record store.new) result }
{
    let mut files = Row::new(alloc);
    for path in paths {
        let file = load_below(alloc, folder, path.as_str(), store)?;
        push_source(&mut files, path, file)?;
    }
    Ok(files)
}

// Adds a file, where one stood at its path.
fn push_source(
    files: &mut Row<SourceFile>,
    path: String,
    file: Option<Row<u8>>,
) -> Result<(), OutOfMemory>
    ensures { OnOk result (files.new ≡ files.old ++ meant.source (string_bytes path) file) }
{
    match file {
        Some(bytes) => files.push(SourceFile {
            path: Text::from_string(path),
            bytes,
        }),
        None => Ok(()),
    }
}
