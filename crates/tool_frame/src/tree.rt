//! Loading the `.aidl` files of a tree from a store, within the limits on their number and their bytes.
ghost use Rattle.std.specs.Prelude.{◌≡◌, ◌++◌, ◌∷◌, [], All, IfOk, OnOk, map, string_bytes, true};
ghost use Rattle.aidl_base.specs.declared.limit.LimitName.TheVariants.{FileBytes};
ghost use Rattle.aidl_outside.specs.Asks.{AsksFile, AsksInOrder};
ghost use Rattle.aidl_outside.specs.Causes.{StoreCause};
ghost use Rattle.aidl_outside.specs.Faults.{FailedIn, IfStoreFailed, listing as lists};
ghost use Rattle.aidl_outside.specs.Files.{path_below};
ghost use Rattle.aidl_outside.specs.Told.{Tells};
ghost use Rattle.tool_frame.specs.Asks.{AsksTree};
ghost use Rattle.tool_frame.specs.Refusals.{file_at};
ghost use Rattle.tool_frame.specs.Trees.{AreShort, file_found, files_at, is_source, sources_below, tree_at, tree_seen};
ghost use Rattle.tool_frame.specs.Results.{IsShort, loaded};
ghost use Rattle.tool_frame.specs.steps.Trees.{onto, so_far};

use crate::loading::load;
use aidl_base::{Limit, LimitName, OutOfMemory, Row, SourceFile, Text};
use aidl_outside::{Store, StoreFault, path_below};
use std::alloc::Global;

/// The files below a root that end in `.aidl`, sorted by the bytes of their paths, which are relative to the root.
/// Refused are more than 4,096 of them, and else the first of more than 262,144 bytes. A root
/// with none below it is the empty tree.
pub fn load_tree<S: Store>(
    alloc: Global,
    root: &str,
    store: &mut S,
) -> Result<Result<Row<SourceFile>, Limit>, StoreFault>
    ensures tree { IfOk result (λ tree. Tells (S.kept store.old) (λ files. tree_seen tree
        ≡ tree_at files root.now)) }
    ensures short { IfOk result (λ tree. IfOk tree AreShort) }
    ensures unchanged { S.kept store.new ≡ S.kept store.old }
    ensures cause { StoreCause (S.fault_record store.old) (S.fault_record store.new) result }
    ensures failed { IfStoreFailed result
        (FailedIn (S.fault_record store.new) (AsksTree root.now (S.kept store.old))) }
{
    let paths = source_paths(alloc, root, store)?;
    let which = LimitName::Files;
    if paths.len() > which.number() as usize {
        return Ok(Err(Limit { which }));
    }
    load_files(alloc, root, paths, store)
}

// The paths of the sources below a root.
fn source_paths<S: Store>(
    alloc: Global,
    root: &str,
    store: &mut S,
) -> Result<Vec<String>, StoreFault>
    ensures paths { IfOk result (λ paths. Tells (S.kept store.old)
        (λ files. map string_bytes paths.items ≡ sources_below root.now files)) }
    ensures sources { IfOk result (λ paths. All (λ path. is_source path ≡ true)
        (map string_bytes paths.items)) }
    ensures unchanged { S.kept store.new ≡ S.kept store.old }
    ensures cause { StoreCause (S.fault_record store.old) (S.fault_record store.new) result }
    ensures failed { IfStoreFailed result (FailedIn (S.fault_record store.new) (λ call. call
        ≡ lists root.now)) }
{
    let mut paths = store.list(alloc, root)?;
    paths.retain(|path| is_source(path.as_str()));
    Ok(paths)
}

fn is_source(path: &str) -> bool
    ensures { result ≡ is_source path.now }
{
    path.as_bytes().ends_with(b".aidl")
}

// The files at some paths below a root, up to the first that is too long.
fn load_files<S: Store>(
    alloc: Global,
    root: &str,
    paths: Vec<String>,
    store: &mut S,
) -> Result<Result<Row<SourceFile>, Limit>, StoreFault>
    ensures tree { IfOk result (λ tree. Tells (S.kept store.old) (λ files. tree_seen tree
        ≡ files_at files root.now (map string_bytes paths.items))) }
    ensures short { IfOk result (λ tree. IfOk tree AreShort) }
    ensures unchanged { S.kept store.new ≡ S.kept store.old }
    ensures cause { StoreCause (S.fault_record store.old) (S.fault_record store.new) result }
    ensures failed { IfStoreFailed result (FailedIn (S.fault_record store.new)
        (AsksInOrder FileBytes (map (path_below root.now) (map string_bytes paths.items)) (S.kept store.old))) }
{
    let mut files = Row::new(alloc);
    for path in paths {
        if let Err(limit) = load_next(alloc, root, path, &mut files, store)? {
            return Ok(Err(limit));
        }
    }
    Ok(Ok(files))
}

// Adds the file at a path below a root to those before it.
fn load_next<S: Store>(
    alloc: Global,
    root: &str,
    path: String,
    files: &mut Row<SourceFile>,
    store: &mut S,
) -> Result<Result<(), Limit>, StoreFault>
    ensures file { IfOk result (λ step. Tells (S.kept store.old) (λ kept. onto files.old (file_found
        (string_bytes path) (file_at FileBytes kept (path_below root.now (string_bytes path))))
        ≡ so_far files.new step)) }
    ensures short { AreShort files.old → AreShort files.new }
    ensures unchanged { S.kept store.new ≡ S.kept store.old }
    ensures cause { StoreCause (S.fault_record store.old) (S.fault_record store.new) result }
    ensures failed { IfStoreFailed result (FailedIn (S.fault_record store.new)
        (AsksFile FileBytes (path_below root.now (string_bytes path)) (S.kept store.old))) }
{
    let Ok(whole) = path_below(alloc, root, path.as_str()) else {
        return Err(StoreFault::OutOfMemory);
    };
    let file = load(alloc, LimitName::FileBytes, whole.as_str(), store)?;
    match push_loaded(files, path, file) {
        Ok(step) => Ok(step),
        Err(_) => Err(StoreFault::OutOfMemory),
    }
}

// Adds a file that was loaded, where one stood at its path, and it wasn't too long.
fn push_loaded(
    files: &mut Row<SourceFile>,
    path: String,
    file: Option<Result<Vec<u8>, Limit>>,
) -> Result<Result<(), Limit>, OutOfMemory>
    ensures file { IfOk result (λ step. onto files.old
        (file_found (string_bytes path) (loaded file)) ≡ so_far files.new step) }
    ensures short { IsShort FileBytes file → AreShort files.old → AreShort files.new }
{
    match file {
        None => Ok(Ok(())),
        Some(Err(limit)) => Ok(Err(limit)),
        Some(Ok(bytes)) => {
            files.push(SourceFile {
                path: Text::from_string(path),
                bytes: Row::from_vec(bytes),
            })?;
            Ok(Ok(()))
        }
    }
}
