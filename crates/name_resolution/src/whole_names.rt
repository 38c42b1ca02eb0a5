//! Imports by their whole names.
ghost use Rattle.std.specs.Prelude.{◌≡◌, ◌<◌, ◌+◌, nat_eq, get_or, drop, map, length, IfOk};
ghost use Rattle.std.specs.List.{position_from};
ghost use Rattle.declared_names.specs.Ends.{mark_of_import};
ghost use Rattle.name_resolution.specs.steps.Behind.{place_of};

use aidl_base::{Ident, OutOfMemory};
use aidl_syntax::DottedTree;
use declared_names::{Table, same, with_parts};
use std::alloc::Global;
use std::marker::Model;

/// Imports, and the table of the marks of their whole names. Contracts see it as these imports.
#[derive(Drop)]
pub struct WholeNames<'a, 'b> {
    imports: &'a [&'b DottedTree],
    table: Table,
}

impl<'a, 'b> Model for WholeNames<'a, 'b> {
    ghost use Rattle.std.specs.Prelude.{List, map, ◌≡◌};
    ghost use Rattle.std.specs.Borrow.{Bor};
    ghost use Rattle.std.specs.Coded.{codes};
    ghost use Rattle.aidl_syntax.specs.declared.tree.DottedTree.{DottedTree};
    ghost use Rattle.aidl_syntax.specs.contracts.tree.DottedTree as dotted_tree;
    ghost use Rattle.declared_names.specs.Ends.{mark_of_import};

    ghost Value = { List (Bor DottedTree) };

    ghost coded = { Prim.hlevel (codes, dotted_tree.the_row.coded) };

    ghost view = { λ names. names.imports.now };

    ghost invariant = { λ names. names.table ≡ map (λ d. mark_of_import d.now) names.imports.now };
}

impl<'a, 'b> WholeNames<'a, 'b> {
    /// Those of these imports.
    pub fn new(
        alloc: Global,
        imports: &'a [&'b DottedTree],
    ) -> Result<WholeNames<'a, 'b>, OutOfMemory>
        ensures { IfOk result (λ names. names ≡ imports.now) }
    {
        let table = Table::new(alloc, marks_of(alloc, imports)?)?;
        Ok(WholeNames { imports, table })
    }

    /// The imports.
    pub fn as_slice(&self) -> &'a [&'b DottedTree]
        ensures { result.now ≡ self.now }
    {
        self.imports
    }

    /// The place of the first import with a whole name.
    pub fn place_of(&self, name: &[Ident]) -> Option<usize>
        ensures { result ≡ place_of self.now name.now }
    {
        let imports = self.as_slice();
        let mut at = self.first(with_parts(0, name));
        'places: while let Some(place) = at {
            if same(imports[place].name.0.as_slice(), name) {
                return Some(place);
            }
            at = self.next(place);
        }
        None
    }

    // The place of the first import whose whole name has a mark.
    fn first(&self, mark: u64) -> Option<usize>
        ensures { result ≡ position_from (nat_eq mark) 0
            (map (λ d. mark_of_import d.now) self.now) }
    {
        self.table.first(mark)
    }

    // The place of the next one with the mark that the one at a place has.
    fn next(&self, place: usize) -> Option<usize>
        requires { place < length self.now }
        ensures { result ≡ position_from (nat_eq (get_or (map (λ d. mark_of_import d.now) self.now)
            place 0)) (place + 1) (drop (place + 1) (map (λ d. mark_of_import d.now) self.now)) }
    {
        self.table.next(place)
    }
}

// The marks of the whole names of imports.
fn marks_of(alloc: Global, imports: &[&DottedTree]) -> Result<Vec<u64>, OutOfMemory>
    ensures { IfOk result (λ marks. marks.items ≡ map (λ d. mark_of_import d.now) imports.now) }
{
    let mut marks = Vec::with_capacity(alloc, imports.len())?;
    for import in imports {
        marks.push(with_parts(0, import.name.0.as_slice()))?;
    }
    Ok(marks)
}
