//! The breaches of E2 and E3 by imports.
ghost use Rattle.std.specs.Prelude.{◌≡◌, ◌≤◌, ◌<◌, ◌++◌, ◌||◌, map, length, get_or, Some, IfOk, OnOk};
ghost use Rattle.std.specs.List.{position_from};
ghost use Rattle.aidl_syntax.specs.Sources.{source_of};
ghost use Rattle.aidl_names.specs.Rules.{breaches_at, unknown_imports, other_imports};
ghost use Rattle.declared_names.specs.Numbered.{in_each};
ghost use Rattle.declared_names.specs.Marks.{mark_of_last};
ghost use Rattle.aidl_names.specs.Alike.{is_alike};
ghost use Rattle.declared_names.specs.Entries.{entry_of};

use crate::rows::add_if;
use aidl_base::{Breach, Ident, OutOfMemory};
use aidl_syntax::{DottedTree, ParsedFile};
use declared_names::{Declarations, Table, last, last_mark, same, with_parts};
use name_resolution::number_of;
use std::alloc::Global;

/// Adds the breaches of E3.
pub fn add_unknown_imports(
    declarations: &Declarations<'_>,
    files: &[ParsedFile],
    rows: &mut Vec<Breach>,
) -> Result<(), OutOfMemory>
    requires files { length files.now ≤ 4096 }
    ensures { OnOk result (rows.new.items ≡ rows.old.items ++ breaches_at 3 (in_each
        (unknown_imports (map entry_of declarations.now)) 0 (map source_of files.now))) }
{
    for (i, file) in files.iter().enumerate() {
        add_unknown(declarations, i as u32, file, rows)?;
    }
    Ok(())
}

fn add_unknown(
    declarations: &Declarations<'_>,
    number: u32,
    file: &ParsedFile,
    rows: &mut Vec<Breach>,
) -> Result<(), OutOfMemory>
    ensures { OnOk result (rows.new.items ≡ rows.old.items ++ breaches_at 3 (unknown_imports
        (map entry_of declarations.now) number (source_of file.now))) }
{
    for import in file.tree.imports.as_slice() {
        let unknown = number_of(declarations, 0, &[], import.name.0.as_slice()).is_none();
        add_if(unknown, 3, number, import.offset, rows)?;
    }
    Ok(())
}

/// Adds the breaches of E2 by imports.
pub fn add_other_imports(
    alloc: Global,
    files: &[ParsedFile],
    rows: &mut Vec<Breach>,
) -> Result<(), OutOfMemory>
    requires files { length files.now ≤ 4096 }
    ensures { OnOk result (rows.new.items
        ≡ rows.old.items ++ breaches_at 2 (in_each other_imports 0 (map source_of files.now))) }
{
    for (i, file) in files.iter().enumerate() {
        add_others(alloc, i as u32, file, rows)?;
    }
    Ok(())
}

// Beside the first import of each last part stands whether one so far with that last part differs from it.
fn add_others(
    alloc: Global,
    number: u32,
    file: &ParsedFile,
    rows: &mut Vec<Breach>,
) -> Result<(), OutOfMemory>
    ensures { OnOk result (rows.new.items
        ≡ rows.old.items ++ breaches_at 2 (other_imports number (source_of file.now))) }
{
    let imports = file.tree.imports.as_slice();
    let table = Table::new(alloc, last_marks(alloc, imports)?)?;
    let mut differ = Vec::from_elem(alloc, false, imports.len())?;
    for (i, import) in imports.iter().enumerate() {
        let first = first_place(imports, &table, i, import);
        let another = !same(imports[first].name.0.as_slice(), import.name.0.as_slice());
        let other = either(differ[first], another);
        differ[first] = other;
        add_if(other, 2, number, import.offset, rows)?;
    }
    Ok(())
}

fn either(a: bool, b: bool) -> bool
    ensures { result ≡ (a || b) }
{
    a || b
}

// The marks of the last parts of imports.
fn last_marks(alloc: Global, imports: &[DottedTree]) -> Result<Vec<u64>, OutOfMemory>
    ensures { IfOk result (λ marks. marks.items ≡ map mark_of_last imports.now) }
{
    let mut marks = Vec::with_capacity(alloc, imports.len())?;
    for import in imports {
        marks.push(last_mark(import))?;
    }
    Ok(marks)
}

// The place of the first import that has the last part of the one at a place.
fn first_place(imports: &[DottedTree], table: &Table, i: usize, import: &DottedTree) -> usize
    requires table { table.now ≡ map mark_of_last imports.now }
    requires lies { i < length imports.now }
    requires here { import.now ≡ get_or imports.now i import.now }
    ensures first { position_from (is_alike import.now.name.0) 0 imports.now ≡ Some result }
    ensures within { result ≤ i }
{
    first_alike(imports, table, import.name.0.as_slice()).unwrap_or(i)
}

// The place of the first import that has the last part of a name.
fn first_alike(imports: &[DottedTree], table: &Table, name: &[Ident]) -> Option<usize>
    requires table { table.now ≡ map mark_of_last imports.now }
    ensures { result ≡ position_from (is_alike name.now) 0 imports.now }
{
    let part = last(name);
    let mut at = table.first(with_parts(0, part));
    'places: while let Some(place) = at {
        if same(last(imports[place].name.0.as_slice()), part) {
            return Some(place);
        }
        at = table.next(place);
    }
    None
}
