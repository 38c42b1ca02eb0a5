//! The breaches of the rules on types, as text.

use crate::names::{shown_breaches, shown_names};
use aidl_base::OutOfMemory;
use aidl_names::{NameFault, Names};
use aidl_syntax::ParsedFile;
use std::alloc::Global;
use type_rules::breaches;

/// The breaches of the rules on types, `none` where there is none, or why the names of the tree are refused.
pub fn shown_types(
    alloc: Global,
    files: &[ParsedFile],
    names: &Result<Names<'_>, NameFault>,
) -> Result<String, OutOfMemory> {
    let Ok(resolved) = names else {
        return shown_names(alloc, files, names);
    };
    let rows = breaches(alloc, resolved)?;
    if rows.len() == 0 {
        return Ok(String::from_str(alloc, "none")?);
    }
    shown_breaches(alloc, files, rows.as_slice())
}
