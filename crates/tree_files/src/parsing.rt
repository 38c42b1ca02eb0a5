//! Parsing all files of a tree.
ghost use Rattle.std.specs.Prelude.{◌≡◌, ◌≤◌, length, IfOk, IfErr};
ghost use Rattle.std.specs.List.{All};
ghost use Rattle.aidl_syntax.specs.Sources.{AreOfBytes};
ghost use Rattle.tree_files.specs.Parsed.{AreParsed};
ghost use Rattle.tree_files.specs.Refusals.{IsRefusal};
ghost use Rattle.tree_files.specs.steps.Standing.{Stands};

use crate::fault::FilesFault;
use crate::found::Found;
use crate::sizes::oversized;
use aidl_base::{Limit, OutOfMemory, Row, SourceFile};
use aidl_syntax::ParsedFile;
use std::alloc::Global;

/// The files of a tree, each with the tree that stands for the tokens of its bytes, in order. It refuses, in this
/// order: the limits `files` and `file-bytes`; every file without tokens; the limit on tokens that the first file
/// passes, `nesting` before `run-length`; every file for which no tree stands. It may also answer that memory was
/// wanted.
pub fn parse_files(alloc: Global, files: &[SourceFile]) -> Result<Row<ParsedFile>, FilesFault>
    ensures ok { IfOk result (AreParsed files.now) }
    ensures of_bytes { IfOk result AreOfBytes }
    ensures err { IfErr result (IsRefusal files.now) }
{
    if let Some(which) = oversized(files) {
        return Err(FilesFault::Limit(Limit { which }));
    }
    found(alloc, files)?.answer()
}

// What is found of all files.
fn found(alloc: Global, files: &[SourceFile]) -> Result<Found, OutOfMemory>
    requires few { length files.now ≤ 4096 }
    requires short { All (λ f. length f.bytes ≤ 262144) files.now }
    ensures { IfOk result (Stands files.now) }
{
    let mut found = Found::nothing(alloc);
    for (number, file) in files.iter().enumerate() {
        found.add(alloc, number as u32, file)?;
    }
    Ok(found)
}
