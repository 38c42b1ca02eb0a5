//! Which declarations stand inside which.
ghost use Rattle.std.specs.Prelude.{◌≡◌, ◌≤◌, ◌<◌, ℕ, Some, [], length, IfOk, OnOk};
ghost use Rattle.api_dump.specs.steps.Tables.{IsAdded, IsTable, row_at};

use aidl_base::{OutOfMemory, Row};
use aidl_schema::Decl;
use std::alloc::Global;

/// The numbers of the declarations inside each declaration.
pub fn nesting(alloc: Global, decls: &[Decl]) -> Result<Vec<Row<u32>>, OutOfMemory>
    requires few { length decls.now ≤ 4294967296 }
    ensures { IfOk result (λ rows. IsTable decls.now rows.items) }
{
    let mut rows = empty_rows(alloc, decls.len())?;
    for (i, decl) in decls.iter().enumerate() {
        add(rows.as_mut_slice(), decl.outer, i as u32)?;
    }
    Ok(rows)
}

// So many empty rows.
fn empty_rows(alloc: Global, count: usize) -> Result<Vec<Row<u32>>, OutOfMemory>
    ensures len { IfOk result (λ rows. length rows.items ≡ count) }
    ensures empty { IfOk result (λ rows. (n : ℕ) → row_at rows.items n ≡ []) }
{
    let mut rows = Vec::with_capacity(alloc, count)?;
    for _ in 0..count {
        rows.push(Row::new(alloc))?;
    }
    Ok(rows)
}

// Adds a number to the row of the declaration that encloses it.
fn add(rows: &mut [Row<u32>], outer: Option<u32>, number: u32) -> Result<(), OutOfMemory>
    ensures { OnOk result (IsAdded number outer rows.old rows.new) }
{
    if let Some(outer) = outer {
        let at = outer as usize;
        if at < rows.len() {
            rows[at].push(number)?;
        }
    }
    Ok(())
}
