//! Tables of trees of files, each with what is wanted of it.

use crate::case::case_of;
use crate::texts::plain;
use crate::tried::Tried;
use aidl_base::{OutOfMemory, Row, SourceFile, Text};
use case_sources::{Asked, answer_of};
use std::alloc::Global;

/// Tries a block that is a table of trees: `PATH: TEXT || PATH: TEXT .. => WANTED` each.
pub fn try_trees(
    alloc: Global,
    asked: Asked,
    block: &str,
    tried: &mut Tried,
) -> Result<(), OutOfMemory> {
    for line in block.lines() {
        if let Some((sources, wanted)) = case_of(line) {
            let came = answer_of(alloc, asked, files_of(alloc, sources)?.as_slice())?;
            tried.row(line, wanted.as_bytes(), came.as_bytes())?;
        }
    }
    Ok(())
}

fn files_of(alloc: Global, sources: &str) -> Result<Vec<SourceFile>, OutOfMemory> {
    let mut files = Vec::new(alloc);
    for source in sources.split(" || ") {
        let (path, text) = source.split_once(": ").unwrap_or((source, ""));
        files.push(SourceFile {
            path: Text::from_str(alloc, path)?,
            bytes: Row::from_vec(plain(alloc, text)?),
        })?;
    }
    Ok(files)
}
