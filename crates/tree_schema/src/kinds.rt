//! What a declaration is in the schema, with its fields, methods or enumerators.
ghost use Rattle.std.specs.Prelude.{◌≡◌, map, IfOk};
ghost use Rattle.aidl_syntax.specs.Members.{body};
ghost use Rattle.aidl_syntax.specs.Trees.{decl_of, enumerator_of};
ghost use Rattle.type_shapes.specs.Backing.{backing_of as wanted_of};
ghost use Rattle.tree_schema.specs.Parts as parts;
ghost use Rattle.tree_schema.specs.SchemaOf as meant;
ghost use Rattle.tree_schema.specs.steps.Scopes.{files_of, outcomes_of};

use crate::fields::fields_in;
use crate::methods::methods_in;
use crate::scope::Scope;
use crate::values::enumerator_value;
use aidl_base::{Ident, OutOfMemory, Row};
use aidl_schema::{Backing, Enumerator, Kind};
use aidl_syntax::{BodyTree, DeclTree, EnumeratorTree};
use const_values::Wanted;
use std::alloc::Global;
use type_shapes::backing_of as wanted_of;

/// What the declaration of a scope declares.
pub fn kind_of(
    alloc: Global,
    scope: &Scope<'_, '_>,
    declared: &DeclTree,
) -> Result<Kind, OutOfMemory>
    ensures { IfOk result (λ kind. kind
        ≡ meant.kind_of (files_of scope.now) (outcomes_of scope.now)
        scope.now.file scope.now.number (wanted_of (decl_of declared.now))
        (body (decl_of declared.now))) }
{
    match &declared.body {
        BodyTree::Parcelable(members) => {
            let in_union = false;
            let fields = fields_in(alloc, scope, in_union, members.as_slice())?;
            Ok(Kind::Parcelable(fields))
        }
        BodyTree::Union(members) => {
            let in_union = true;
            let fields = fields_in(alloc, scope, in_union, members.as_slice())?;
            Ok(Kind::Union(fields))
        }
        BodyTree::Enum(enumerators) => {
            let backing = backing_of(declared);
            let enumerators = enumerators_in(alloc, scope, enumerators.as_slice())?;
            Ok(Kind::Enum(backing, enumerators))
        }
        BodyTree::Interface { oneway, members } => {
            let methods = methods_in(alloc, scope, *oneway, members.as_slice())?;
            Ok(Kind::Interface(methods))
        }
    }
}

// The type that spells the values of an enum: that of its annotation `@Backing`, or else byte.
fn backing_of(declared: &DeclTree) -> Backing
    ensures { result ≡ meant.backing_in (wanted_of (decl_of declared.now)) }
{
    match wanted_of(declared) {
        Wanted::Int => Backing::Int,
        Wanted::Long => Backing::Long,
        _ => Backing::Byte,
    }
}

fn enumerators_in(
    alloc: Global,
    scope: &Scope<'_, '_>,
    enumerators: &[EnumeratorTree],
) -> Result<Row<Enumerator>, OutOfMemory>
    ensures { IfOk result (λ row.
        row ≡ map (parts.enumerator_in (files_of scope.now) (outcomes_of scope.now) scope.now.file)
        (map enumerator_of enumerators.now)) }
{
    let mut row = Vec::with_capacity(alloc, enumerators.len())?;
    for enumerator in enumerators {
        row.push(Enumerator {
            name: Ident(enumerator.name.name.0.try_clone(alloc)?),
            value: enumerator_value(scope, enumerator),
        })?;
    }
    Ok(Row::from_vec(row))
}
