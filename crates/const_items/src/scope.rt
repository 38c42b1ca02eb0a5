//! A declaration in which names are looked up.
ghost use Rattle.std.specs.Prelude.{◌≡◌, map};
ghost use Rattle.aidl_syntax.specs.Sources.{source_of};
ghost use Rattle.type_shapes.specs.Types.{shape_in};

use aidl_names::Names;
use aidl_syntax::TypeTree;
use std::marker::Model;
use type_shapes::{Shape, shape_of};

/// A declaration of a tree, in which names are looked up. Contracts see it as the files, the number of its file and its own.
#[derive(Drop)]
pub struct Scope<'n, 'a> {
    pub names: &'n Names<'a>,
    pub file: u32,
    pub number: u32,
}

impl<'n, 'a> Model for Scope<'n, 'a> {
    ghost use Rattle.std.specs.Prelude.{map};
    ghost use Rattle.aidl_syntax.specs.contracts.tree.ParsedFile as parsed_file;
    ghost use Rattle.aidl_syntax.specs.Sources.{source_of};
    ghost use Rattle.aidl_names.specs.Refusals.{IsScope};
    ghost use Rattle.const_items.specs.steps.ScopeViews.{InFiles, scope_code};

    ghost Value = { InFiles };

    ghost coded = { scope_code parsed_file.the_row.coded };

    ghost view = { λ scope. record {
      files = scope.names.now;
      file = scope.file;
      number = scope.number;
    } };

    ghost invariant = { λ scope. IsScope
        (map source_of scope.names.now) scope.file scope.number };
}

impl<'n, 'a> Scope<'n, 'a> {
    /// The shape of a type that is written in the declaration.
    pub fn shape_of(&self, ty: &TypeTree) -> Shape
        ensures { result ≡ shape_in (map source_of self.now.files) self.now.file self.now.number ty.now }
    {
        shape_of(self.names, self.file, self.number, ty)
    }
}
