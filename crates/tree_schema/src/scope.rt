//! A declaration of which a schema is made, with what is read of its tree: types, outcomes, and numbers in the schema.
ghost use Rattle.std.specs.Prelude.{◌≡◌};
ghost use Rattle.aidl_syntax.specs.Trees.{map_option};
ghost use Rattle.declared_names.specs.Declarations.{declarations};
ghost use Rattle.type_shapes.specs.Types.{shape_in};
ghost use Rattle.tree_schema.specs.SchemaOf as meant;
ghost use Rattle.tree_schema.specs.steps.Scopes.{files_of, outcomes_of};
ghost use Rattle.tree_schema.specs.Values as values;

use aidl_base::Const;
use aidl_names::Names;
use aidl_syntax::TypeTree;
use const_eval::{Outcome, Settled};
use indexmap::IndexMap;
use std::marker::Model;
use type_shapes::{Shape, shape_of};

/// A declaration of a tree, in which names are looked up, with the outcomes of the tree's items and the number of each declaration in
/// the schema. Contracts see it as the files, these outcomes, the number of its file and its own.
#[derive(Drop)]
pub struct Scope<'a, 'b> {
    pub names: &'a Names<'b>,
    pub settled: &'a Settled<'b>,
    pub numbers: &'a IndexMap<u32, u32>,
    pub file: u32,
    pub number: u32,
}

impl<'a, 'b> Model for Scope<'a, 'b> {
    ghost use Rattle.std.specs.Prelude.{◌≡◌, ℕ, nat_eq, map};
    ghost use Rattle.indexmap.specs.IndexMap.{get};
    ghost use Rattle.aidl_syntax.specs.contracts.tree.ParsedFile as parsed_file;
    ghost use Rattle.aidl_syntax.specs.Sources.{source_of};
    ghost use Rattle.aidl_names.specs.Refusals.{IsScope};
    ghost use Rattle.const_eval.specs.contracts.outcome.Outcome as outcome;
    ghost use Rattle.const_items.specs.Items.{items};
    ghost use Rattle.const_items.specs.ItemViews.{item_of};
    ghost use Rattle.declared_names.specs.Declarations.{declarations};
    ghost use Rattle.tree_schema.specs.Numbers.{number_of};
    ghost use Rattle.tree_schema.specs.steps.Scopes.{TreeScope, scope_code};

    ghost Value = { TreeScope };

    ghost coded = { scope_code parsed_file.the_row.coded outcome.the_row.coded };

    ghost view = { λ scope. record {
      files = scope.names.now;
      outcomes = scope.settled.now.outcomes.items;
      file = scope.file;
      number = scope.number;
    } };

    ghost invariant = { λ scope. record {
      items : map item_of scope.settled.now.items.list.items ≡ items (map source_of scope.names.now);
      numbered : (n : ℕ) → get nat_eq scope.numbers.now n
          ≡ number_of (declarations (map source_of scope.names.now)) n;
      declared : IsScope (map source_of scope.names.now) scope.file scope.number;
    } };
}

impl<'a, 'b> Scope<'a, 'b> {
    /// The shape of a type that is written in the declaration.
    pub fn shape_of(&self, ty: &TypeTree) -> Shape
        ensures { result ≡ shape_in (files_of self.now) self.now.file self.now.number ty.now }
    {
        shape_of(self.names, self.file, self.number, ty)
    }

    /// The number in the schema of the declaration that has a number in the trees, and None of none.
    pub fn schema_number(&self, number: Option<u32>) -> Option<u32>
        ensures { result ≡ meant.outer_of (declarations (files_of self.now)) number }
    {
        match number {
            None => None,
            Some(number) => self.numbers.get(&number).copied(),
        }
    }

    /// The value of what has its place there in the file, in bytes.
    pub fn value_at(&self, place: u32) -> Option<&Const>
        ensures { map_option (λ c. c.now) result
            ≡ values.value_at (files_of self.now) (outcomes_of self.now) self.now.file place }
    {
        let init = self.settled.init_at(self.file, place)?;
        match self.settled.outcome(init) {
            Outcome::Given(value) => Some(value),
            Outcome::Fault(_) => None,
            Outcome::Unjudged => None,
        }
    }
}
