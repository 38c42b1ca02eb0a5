//! The ends of declared names, with a table of their marks.
ghost use Rattle.std.specs.Prelude.{◌≡◌, ◌++◌, map, IfOk, OnOk};
ghost use Rattle.declared_names.specs.Ends.{mark_back, ends_in, ends_of};
ghost use Rattle.declared_names.specs.Entries.{entry_of};

use crate::found::Found;
use crate::marking::with_part;
use crate::table::Table;
use aidl_base::{Ident, OutOfMemory};
use std::alloc::Global;
use std::marker::Model;

/// An end of the name of a declaration: the number of the declaration, and the mark of the end, from its back.
#[derive(Clone, Copy)]
pub struct End {
    pub owner: usize,
    pub mark: u64,
}

/// Ends of names, and a table of their marks. Contracts see them as these ends.
#[derive(Drop)]
pub struct Ends {
    listed: Vec<End>,
    table: Table,
}

impl Model for Ends {
    ghost use Rattle.std.specs.Prelude.{List, map, ◌≡◌};
    ghost use Rattle.declared_names.specs.declared.ends.End.{End};

    ghost Value = { List End };

    ghost view = { λ ends. ends.listed.items };

    ghost invariant = { λ ends. ends.table ≡ map (λ e. e.mark) ends.listed.items };
}

impl Ends {
    /// The table of their marks.
    pub fn table(&self) -> &Table
        ensures { result.now ≡ map (λ e. e.mark) self.now }
    {
        &self.table
    }

    /// The ends.
    pub fn listed(&self) -> &[End]
        ensures { result.now ≡ self.now }
    {
        self.listed.as_slice()
    }
}

/// The ends of the names of declarations.
pub fn ends_of(alloc: Global, found: &[Found<'_>]) -> Result<Ends, OutOfMemory>
    ensures { IfOk result (λ ends. ends ≡ ends_of (map entry_of found.now)) }
{
    let mut listed = Vec::new(alloc);
    for (i, f) in found.iter().enumerate() {
        add_ends(i, f.name.0.as_slice(), &mut listed)?;
    }
    let table = Table::new(alloc, marks_of(alloc, listed.as_slice())?)?;
    Ok(Ends { listed, table })
}

// From the back, so that each mark is made of the one before.
fn add_ends(owner: usize, name: &[Ident], listed: &mut Vec<End>) -> Result<(), OutOfMemory>
    ensures { OnOk result (listed.new.items ≡ listed.old.items ++ ends_in owner name.now) }
{
    let mut mark = 0;
    for i in (0..name.len()).rev() {
        mark = with_part(mark, &name[i]);
        listed.push(End { owner, mark })?;
    }
    Ok(())
}

/// The mark of a name from its back.
pub fn mark_back(name: &[Ident]) -> u64
    ensures { result ≡ mark_back name.now }
{
    let mut mark = 0;
    for i in (0..name.len()).rev() {
        mark = with_part(mark, &name[i]);
    }
    mark
}

fn marks_of(alloc: Global, listed: &[End]) -> Result<Vec<u64>, OutOfMemory>
    ensures { IfOk result (λ marks. marks.items ≡ map (λ e. e.mark) listed.now) }
{
    let mut marks = Vec::with_capacity(alloc, listed.len())?;
    for end in listed {
        marks.push(end.mark)?;
    }
    Ok(marks)
}
