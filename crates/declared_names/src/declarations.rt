//! The declarations of a tree with what finds one by its name.
ghost use Rattle.std.specs.Prelude.{◌≡◌, ◌≤◌, ◌<◌, ◌+◌, nat_eq, get_or, drop, map, length, IfOk};
ghost use Rattle.std.specs.List.{position_from};
ghost use Rattle.declared_names.specs.Marks.{mark_of_entry};
ghost use Rattle.declared_names.specs.Entries.{entry_of};

use crate::found::Found;
use crate::marking::marks;
use crate::table::Table;
use aidl_base::OutOfMemory;
use std::alloc::Global;
use std::marker::Model;

/// At most 16384 declarations, and the table of the marks of their names. Contracts see it as these declarations.
#[derive(Drop)]
pub struct Declarations<'a> {
    found: Vec<Found<'a>>,
    table: Table,
}

impl<'a> Model for Declarations<'a> {
    ghost use Rattle.std.specs.Prelude.{List, map, length, ◌≡◌, ◌≤◌};
    ghost use Rattle.std.specs.Coded.{codes};
    ghost use Rattle.declared_names.specs.declared.found.Found.{Found};
    ghost use Rattle.aidl_syntax.specs.contracts.tree.DeclTree as decl_tree;
    ghost use Rattle.declared_names.specs.Marks.{mark_of_entry};
    ghost use Rattle.declared_names.specs.Entries.{entry_of};

    ghost Value = { List Found };

    ghost coded = { Prim.hlevel (codes, decl_tree.the_row.coded) };

    ghost view = { λ declarations. declarations.found.items };

    ghost invariant = { λ declarations. record {
      count : length declarations.found.items ≤ 16384;
      table : declarations.table ≡ map mark_of_entry (map entry_of declarations.found.items);
    } };
}

impl<'a> Declarations<'a> {
    /// These declarations.
    pub fn new(alloc: Global, found: Vec<Found<'a>>) -> Result<Declarations<'a>, OutOfMemory>
        requires { length found.items ≤ 16384 }
        ensures { IfOk result (λ declarations. declarations ≡ found.entry.items) }
    {
        let table = Table::new(alloc, marks(alloc, found.as_slice())?)?;
        Ok(Declarations { found, table })
    }

    /// The declarations in the order of their numbers.
    pub fn as_slice(&self) -> &[Found<'a>]
        ensures same { result.now ≡ self.now }
        ensures count { length self.now ≤ 16384 }
    {
        self.found.as_slice()
    }

    /// The mark of the name of the declaration with a number.
    pub fn mark(&self, number: usize) -> u64
        requires { number < length self.now }
        ensures { result ≡ get_or (map mark_of_entry (map entry_of self.now)) number 0 }
    {
        self.table.mark(number)
    }

    /// The number of the first declaration whose name has a mark.
    pub fn first(&self, mark: u64) -> Option<usize>
        ensures { result ≡ position_from (nat_eq mark) 0
            (map mark_of_entry (map entry_of self.now)) }
    {
        self.table.first(mark)
    }

    /// The next one whose name has the mark that the name of the declaration with a number has.
    pub fn next(&self, number: usize) -> Option<usize>
        requires { number < length self.now }
        ensures { result ≡ position_from
            (nat_eq (get_or (map mark_of_entry (map entry_of self.now)) number 0))
            (number + 1) (drop (number + 1) (map mark_of_entry (map entry_of self.now))) }
    {
        self.table.next(number)
    }
}
