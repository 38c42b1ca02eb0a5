//! The imports of a file, and what a name means through them.
ghost use Rattle.std.specs.Prelude.{◌≡◌, ◌<◌, ◌+◌, ◌∷◌, [], ◌++◌, nat_eq, get_or, drop, map, length, IfOk, OnOk};
ghost use Rattle.std.specs.List.{position_from};
ghost use Rattle.name_resolution.specs.Imports.{meant_through, meant_in};
ghost use Rattle.aidl_syntax.specs.Sources.{source_of};
ghost use Rattle.name_resolution.specs.steps.Copies.{is_at, is_at_number};
ghost use Rattle.declared_names.specs.Marks.{mark_of, mark_of_last};
ghost use Rattle.declared_names.specs.Times.{is_rarer, is_twice};
ghost use Rattle.declared_names.specs.Entries.{entry_of};
ghost use Rattle.name_resolution.specs.Resolution.{first_declared, imported};

use crate::meaning::Resolved;
use crate::numbers::declared;
use aidl_base::{Ident, OutOfMemory};
use aidl_syntax::{DottedTree, ParsedFile};
use declared_names::{
    Declarations, Ends, Table, ends_in, is_rarer, last_mark, same, with_part, with_parts,
};
use indexmap::IndexMap;
use std::alloc::Global;
use std::marker::Model;

/// Imports through which names mean what they mean through all imports of a file, and a table of the marks of their last
/// parts. A copy of an earlier import is left out. Contracts see it as these imports.
#[derive(Drop)]
pub struct Imports<'a> {
    kept: Vec<&'a DottedTree>,
    table: Table,
}

impl<'a> Model for Imports<'a> {
    ghost use Rattle.std.specs.Prelude.{List, map, ◌≡◌};
    ghost use Rattle.std.specs.Coded.{codes};
    ghost use Rattle.aidl_syntax.specs.declared.tree.DottedTree.{DottedTree};
    ghost use Rattle.aidl_syntax.specs.contracts.tree.DottedTree as dotted_tree;
    ghost use Rattle.declared_names.specs.Marks.{mark_of_last};

    ghost Value = { List DottedTree };

    ghost coded = { Prim.hlevel (codes, dotted_tree.the_row.coded) };

    ghost view = { λ imports. map (λ d. d.now) imports.kept.items };

    ghost invariant = { λ imports. imports.table
        ≡ map mark_of_last (map (λ d. d.now) imports.kept.items) };
}

impl<'a> Imports<'a> {
    /// The imports that are kept.
    pub fn kept(&self) -> &[&'a DottedTree]
        ensures { map (λ d. d.now) result.now ≡ self.now }
    {
        self.kept.as_slice()
    }

    // The place of the first of them whose last part has a mark.
    fn first(&self, mark: u64) -> Option<usize>
        ensures { result ≡ position_from (nat_eq mark) 0 (map mark_of_last self.now) }
    {
        self.table.first(mark)
    }

    // The place of the next one whose last part has the mark that the one at a place has.
    fn next(&self, place: usize) -> Option<usize>
        requires { place < length self.now }
        ensures { result ≡ position_from (nat_eq (get_or (map mark_of_last self.now) place 0))
            (place + 1) (drop (place + 1) (map mark_of_last self.now)) }
    {
        self.table.next(place)
    }

    /// Whether fewer of them have a part as their last one than ends have a mark, as far as marks tell.
    pub fn are_fewer(&self, part: &Ident, ends: &Ends, mark: u64) -> bool
        ensures { result ≡ is_rarer (mark_of (part.now ∷ []))
            (map mark_of_last self.now) mark (map (λ e. e.mark) ends.now) }
    {
        is_rarer(&self.table, with_part(0, part), ends.table(), mark)
    }

    /// Whether several of them have a part as their last one, as far as marks tell.
    pub fn is_shared(&self, part: &Ident) -> bool
        ensures { result ≡ is_twice (mark_of (part.now ∷ [])) (map mark_of_last self.now) }
    {
        match self.table.first(with_part(0, part)) {
            Some(place) => self.table.next(place).is_some(),
            None => false,
        }
    }
}

/// Those of each file.
pub fn imports_of_files<'a>(
    alloc: Global,
    files: &'a [ParsedFile],
) -> Result<Vec<Imports<'a>>, OutOfMemory>
    ensures { IfOk result (λ all. map meant_through all.items
        ≡ map meant_in (map source_of files.now)) }
{
    let mut all = Vec::with_capacity(alloc, files.len())?;
    for file in files {
        all.push(imports_of(alloc, file.tree.imports.as_slice())?)?;
    }
    Ok(all)
}

fn imports_of(alloc: Global, imports: &[DottedTree]) -> Result<Imports<'_>, OutOfMemory>
    ensures { IfOk result (λ all. meant_through all ≡ meant_through imports.now) }
{
    let kept = without_copies(alloc, imports)?;
    let marks = marks_of(alloc, kept.as_slice())?;
    let table = Table::new(alloc, marks)?;
    Ok(Imports { kept, table })
}

// Imports without copies of earlier ones.
fn without_copies(alloc: Global, imports: &[DottedTree]) -> Result<Vec<&DottedTree>, OutOfMemory>
    ensures { IfOk result (λ kept. meant_through (map (λ d. d.now) kept.items)
        ≡ meant_through imports.now) }
{
    let mut kept = Vec::new(alloc);
    let mut places = IndexMap::new(alloc);
    for import in imports {
        keep(&mut places, &mut kept, import)?;
    }
    Ok(kept)
}

// Adds an import, if it isn't one that is kept. Beside marks of imports stand their places.
fn keep<'a>(
    places: &mut IndexMap<u64, usize>,
    kept: &mut Vec<&'a DottedTree>,
    import: &'a DottedTree,
) -> Result<(), OutOfMemory>
    ensures { OnOk result (meant_through (map (λ d. d.now) kept.new.items)
        ≡ meant_through (map (λ d. d.now) kept.old.items ++ import.now ∷ [])) }
{
    let name = import.name.0.as_slice();
    let mark = with_parts(0, name);
    let place = places.get(&mark).copied();
    if !is_at(kept.as_slice(), place, name) {
        places.insert(mark, kept.len())?;
        kept.push(import)?;
    }
    Ok(())
}

// The marks of the last parts of imports.
fn marks_of(alloc: Global, imports: &[&DottedTree]) -> Result<Vec<u64>, OutOfMemory>
    ensures { IfOk result (λ marks. marks.items ≡ map mark_of_last (map (λ d. d.now) imports.now)) }
{
    let mut marks = Vec::with_capacity(alloc, imports.len())?;
    for import in imports {
        marks.push(last_mark(import))?;
    }
    Ok(marks)
}

// Whether the import at a place has this name.
fn is_at(imports: &[&DottedTree], place: Option<usize>, name: &[Ident]) -> bool
    ensures { result ≡ is_at imports.now place name.now }
{
    match place {
        Some(number) => is_at_number(imports, number, name),
        None => false,
    }
}

fn is_at_number(imports: &[&DottedTree], number: usize, name: &[Ident]) -> bool
    ensures { result ≡ is_at_number imports.now number name.now }
{
    match imports.get(number) {
        Some(import) => same(import.name.0.as_slice(), name),
        None => false,
    }
}

/// What a name means through imports: by the first with which it is declared, of those that end in its first part.
pub fn in_imports(
    declarations: &Declarations<'_>,
    imports: &Imports<'_>,
    name: &[Ident],
) -> Option<Resolved>
    ensures { result ≡ meant_through imports.now (map entry_of declarations.now) name.now }
{
    match name {
        [first, rest @ ..] => in_imports_of(declarations, imports, first, rest),
        [] => None,
    }
}

fn in_imports_of(
    declarations: &Declarations<'_>,
    imports: &Imports<'_>,
    first: &Ident,
    rest: &[Ident],
) -> Option<Resolved>
    ensures { result ≡ first_declared (map entry_of declarations.now)
        (imported imports.now (first.now ∷ rest.now)) }
{
    let kept = imports.kept();
    let mut at = imports.first(with_part(0, first));
    'places: while let Some(place) = at {
        match through(declarations, kept[place], first, rest) {
            Some(meaning) => return Some(meaning),
            None => {}
        }
        at = imports.next(place);
    }
    None
}

/// Through one import, where it ends in the name's first part.
pub fn through(
    declarations: &Declarations<'_>,
    import: &DottedTree,
    first: &Ident,
    rest: &[Ident],
) -> Option<Resolved>
    ensures { result ≡ first_declared (map entry_of declarations.now)
        (imported (import.now ∷ []) (first.now ∷ rest.now)) }
{
    let parts = import.name.0.as_slice();
    if ends_in(parts, first) {
        declared(declarations, with_parts(0, parts), parts, rest)
    } else {
        None
    }
}
