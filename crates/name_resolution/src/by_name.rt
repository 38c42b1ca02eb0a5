//! The imports of a file, by their last parts and by their whole names.
ghost use Rattle.std.specs.Prelude.{◌≡◌, map, IfOk};
ghost use Rattle.name_resolution.specs.Imports.{meant_through};
ghost use Rattle.declared_names.specs.Entries.{entry_of};
ghost use Rattle.declared_names.specs.Times.{is_shared};

use crate::behind::behind;
use crate::by_end::ByEnd;
use crate::imported::{Imports, in_imports};
use crate::meaning::Resolved;
use crate::whole_names::WholeNames;
use aidl_base::{Ident, OutOfMemory};
use declared_names::{mark_back, with_part};
use std::alloc::Global;
use std::marker::Model;

/// Imports, and the same by their whole names. Contracts see it as these imports.
#[derive(Drop)]
pub struct ByName<'a, 'b> {
    imports: &'a Imports<'b>,
    whole: WholeNames<'a, 'b>,
}

impl<'a, 'b> Model for ByName<'a, 'b> {
    ghost use Rattle.std.specs.Prelude.{List, map, ◌≡◌};
    ghost use Rattle.std.specs.Coded.{codes};
    ghost use Rattle.aidl_syntax.specs.declared.tree.DottedTree.{DottedTree};
    ghost use Rattle.aidl_syntax.specs.contracts.tree.DottedTree as dotted_tree;

    ghost Value = { List DottedTree };

    ghost coded = { Prim.hlevel (codes, dotted_tree.the_row.coded) };

    ghost view = { λ names. names.imports.now };

    ghost invariant = { λ names. map (λ d. d.now) names.whole ≡ names.imports.now };
}

impl<'a, 'b> ByName<'a, 'b> {
    /// What a name means through the imports. Asked are those with its first part, or the declarations whose names end in
    /// it, whichever are fewer.
    pub fn means(&self, declared: &ByEnd<'_, '_>, name: &[Ident]) -> Option<Resolved>
        ensures { result ≡ meant_through self.now (map entry_of declared.now) name.now }
    {
        match name {
            [first, rest @ ..] => {
                let mark = with_part(mark_back(rest), first);
                if self.imports.are_fewer(first, declared.ends(), mark) {
                    in_imports(declared.declarations(), self.imports, name)
                } else {
                    behind(declared, &self.whole, first, rest)
                }
            }
            [] => None,
        }
    }

    /// Whether several imports have the first part of a name as their last one, as far as marks tell.
    pub fn is_shared(&self, name: &[Ident]) -> bool
        ensures { result ≡ is_shared self.now name.now }
    {
        match name {
            [first, ..] => self.imports.is_shared(first),
            [] => false,
        }
    }
}

/// The imports of each file by their names.
pub fn by_names<'a, 'b>(
    alloc: Global,
    imports: &'a [Imports<'b>],
) -> Result<Vec<ByName<'a, 'b>>, OutOfMemory>
    ensures { IfOk result (λ names. names.items ≡ imports.now) }
{
    let mut names = Vec::with_capacity(alloc, imports.len())?;
    for of_file in imports {
        names.push(by_name(alloc, of_file)?)?;
    }
    Ok(names)
}

fn by_name<'a, 'b>(alloc: Global, imports: &'a Imports<'b>) -> Result<ByName<'a, 'b>, OutOfMemory>
    ensures { IfOk result (λ names. names ≡ imports.now) }
{
    let whole = WholeNames::new(alloc, imports.kept())?;
    Ok(ByName { imports, whole })
}
