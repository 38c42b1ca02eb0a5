//! A declaration with tables that find its methods.
ghost use Rattle.std.specs.Prelude.{◌≡◌, ◌+◌, ℕ, IfOk, nat_eq};
ghost use Rattle.indexmap.specs.IndexMap.{get};
ghost use Rattle.aidl_schema.specs.Find.{position_of_code};
ghost use Rattle.aidl_schema.specs.Names.{methods_of, name_of};
ghost use Rattle.witness_calls.specs.Named.{method_named};
ghost use Rattle.witness_calls.specs.steps.Tables.{id_from};

use aidl_base::{OutOfMemory, Text, joined_by_dots};
use aidl_schema::{Decl, Method, methods_of};
use indexmap::IndexMap;
use name_tables::NameTable;
use std::alloc::Global;
use std::marker::Model;

/// A declaration with its canonical name as one text, and the positions of its methods by their names and by their ids.
/// Contracts see it as the declaration.
#[derive(Drop)]
pub struct NamedDecl<'a> {
    decl: &'a Decl,
    name: Text,
    methods: NameTable<'a, Method>,
    ids: IndexMap<u32, usize>,
}

impl<'a> Model for NamedDecl<'a> {
    ghost use Rattle.std.specs.Prelude.{◌≡◌, ℕ, nat_eq};
    ghost use Rattle.indexmap.specs.IndexMap.{get};
    ghost use Rattle.aidl_schema.specs.contracts.schema.Decl as declared;
    ghost use Rattle.aidl_schema.specs.declared.schema.Decl.{Decl};
    ghost use Rattle.aidl_schema.specs.Names.{methods_of, name_of};
    ghost use Rattle.witness_calls.specs.steps.Tables.{id_from};

    ghost Value = { Decl };

    ghost coded = { declared.the_row.coded };

    ghost view = { λ named. named.decl.now };

    ghost invariant = { λ named. record {
      called : named.name ≡ name_of named.decl.now;
      members : named.methods ≡ methods_of named.decl.now.kind;
      numbered : (n : ℕ) → get nat_eq named.ids n ≡ id_from n 0 (methods_of named.decl.now.kind);
    } };
}

impl<'a> NamedDecl<'a> {
    // A declaration with its tables.
    pub fn new(alloc: Global, decl: &'a Decl) -> Result<NamedDecl<'a>, OutOfMemory>
        ensures { IfOk result (λ named. named ≡ decl.now) }
    {
        let members = methods_of(&decl.kind);
        let name = joined_by_dots(alloc, decl.name.0.as_slice())?;
        let methods = NameTable::new(alloc, members)?;
        let ids = methods_by_id(alloc, members)?;
        Ok(NamedDecl {
            decl,
            name,
            methods,
            ids,
        })
    }

    // Its canonical name.
    pub fn name(&self) -> &Text
        ensures { result.now ≡ name_of self.now }
    {
        &self.name
    }

    // The position of the method of a name, which is in UTF-8.
    pub fn method_named(&self, name: &str) -> Option<usize>
        ensures { result ≡ method_named (methods_of self.now.kind) name.now }
    {
        self.methods.place(name)
    }

    // The position of the method of an id.
    #[tactic(auto, using(crate::proofs::Tables::id_found))]
    pub fn method_of_id(&self, id: u32) -> Option<usize>
        ensures { result ≡ position_of_code (methods_of self.now.kind) (id + 1) }
    {
        self.ids.get(&id).copied()
    }
}

// The first position of each id.
fn methods_by_id(alloc: Global, methods: &[Method]) -> Result<IndexMap<u32, usize>, OutOfMemory>
    ensures { IfOk result (λ table. (n : ℕ) → get nat_eq table n ≡ id_from n 0 methods.now) }
{
    let mut table = IndexMap::with_capacity(alloc, methods.len())?;
    for i in (0..methods.len()).rev() {
        let method = &methods[i];
        table.insert(method.id, i)?;
    }
    Ok(table)
}
