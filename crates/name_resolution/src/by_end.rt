//! Declarations by the ends of their names.
ghost use Rattle.std.specs.Prelude.{◌≡◌, map, IfOk};
ghost use Rattle.declared_names.specs.Entries.{entry_of};
ghost use Rattle.declared_names.specs.Ends.{ends_of};

use aidl_base::OutOfMemory;
use declared_names::{Declarations, Ends, ends_of};
use std::alloc::Global;
use std::marker::Model;

/// Declarations, and the ends of their names. Contracts see it as these declarations.
#[derive(Drop)]
pub struct ByEnd<'d, 'a> {
    declarations: &'d Declarations<'a>,
    ends: Ends,
}

impl<'d, 'a> Model for ByEnd<'d, 'a> {
    ghost use Rattle.std.specs.Prelude.{List, map, ◌≡◌};
    ghost use Rattle.std.specs.Coded.{codes};
    ghost use Rattle.aidl_syntax.specs.contracts.tree.DeclTree as decl_tree;
    ghost use Rattle.declared_names.specs.declared.found.Found.{Found};
    ghost use Rattle.declared_names.specs.Entries.{entry_of};
    ghost use Rattle.declared_names.specs.Ends.{ends_of};

    ghost Value = { List Found };

    ghost coded = { Prim.hlevel (codes, decl_tree.the_row.coded) };

    ghost view = { λ by_end. by_end.declarations.now };

    ghost invariant = { λ by_end. by_end.ends ≡ ends_of (map entry_of by_end.declarations.now) };
}

impl<'d, 'a> ByEnd<'d, 'a> {
    /// These declarations by the ends of their names.
    pub fn new(
        alloc: Global,
        declarations: &'d Declarations<'a>,
    ) -> Result<ByEnd<'d, 'a>, OutOfMemory>
        ensures { IfOk result (λ by_end. by_end ≡ declarations.now) }
    {
        let ends = ends_of(alloc, declarations.as_slice())?;
        Ok(ByEnd { declarations, ends })
    }

    /// The declarations.
    pub fn declarations(&self) -> &'d Declarations<'a>
        ensures { result.now ≡ self.now }
    {
        self.declarations
    }

    /// The ends of their names.
    pub fn ends(&self) -> &Ends
        ensures { result.now ≡ ends_of (map entry_of self.now) }
    {
        &self.ends
    }
}
