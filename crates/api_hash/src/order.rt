//! Files sorted by the bytes of their paths.
ghost use Rattle.std.specs.Prelude.{◌≡◌, ◌++◌, [], IfOk, map};
ghost use Rattle.std.specs.List.{fold};
ghost use Rattle.api_hash.specs.HashText as meant;

use aidl_base::{OutOfMemory, SourceFile};
use std::alloc::Global;
use std::collections::BTreeMap;

/// The files in byte order of their paths.
pub fn in_order<'a>(
    alloc: Global,
    files: &'a [SourceFile],
) -> Result<Vec<&'a SourceFile>, OutOfMemory>
    ensures { IfOk result (λ sorted. map (λ f. f.now) sorted.items
        ≡ meant.in_order files.entry.now) }
{
    let mut places = BTreeMap::new(alloc);
    for file in files {
        places.insert(file.path.as_str(), file)?;
    }
    listed(alloc, places)
}

fn listed<'a>(
    alloc: Global,
    mut places: BTreeMap<&'a str, &'a SourceFile>,
) -> Result<Vec<&'a SourceFile>, OutOfMemory>
    ensures { IfOk result (λ files. map (λ f. f.now) files.items
        ≡ map (λ e. e.1.now) places.entry.entries) }
{
    let mut files = Vec::with_capacity(alloc, places.len())?;
    'places: while let Some((_, file)) = places.pop_first() {
        files.push(file)?;
    }
    Ok(files)
}
