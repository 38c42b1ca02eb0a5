//! The fields of a parcelable or a union in the schema.
ghost use Rattle.std.specs.Prelude.{◌≡◌, ◌++◌, false, IfOk};
ghost use Rattle.aidl_syntax.specs.Members.{listed};
ghost use Rattle.aidl_syntax.specs.Trees.{Members, member_of, members_of};
ghost use Rattle.tree_schema.specs.Parts as meant;
ghost use Rattle.tree_schema.specs.steps.Scopes.{files_of, outcomes_of};

use crate::scope::Scope;
use crate::types::type_of;
use crate::values::initial_of;
use aidl_base::{Ident, OutOfMemory, Row};
use aidl_schema::Field;
use aidl_syntax::MemberTree;
use std::alloc::Global;

/// The fields among the members of a parcelable or a union, with their initializers.
pub fn fields_in(
    alloc: Global,
    scope: &Scope<'_, '_>,
    in_union: bool,
    members: &[MemberTree],
) -> Result<Row<Field>, OutOfMemory>
    ensures { IfOk result (λ fields. fields
        ≡ meant.fields_in (files_of scope.now) (outcomes_of scope.now)
        scope.now.file scope.now.number in_union false (listed (members_of members.now))) }
{
    let mut fields = Vec::new(alloc);
    let mut later = false;
    for member in members {
        later = add_member(alloc, scope, in_union, later, member, &mut fields)?;
    }
    Ok(Row::from_vec(fields))
}

// Adds the field that a member is, and answers whether a field of a union stands before the next one.
fn add_member(
    alloc: Global,
    scope: &Scope<'_, '_>,
    in_union: bool,
    later: bool,
    member: &MemberTree,
    fields: &mut Vec<Field>,
) -> Result<bool, OutOfMemory>
    ensures { let of = meant.fields_in (files_of scope.now)
        (outcomes_of scope.now) scope.now.file scope.now.number in_union in
        IfOk result (λ next. (ms : Members)
        → fields.old.items ++ of later (listed (member_of member.now ms))
        ≡ fields.new.items ++ of next (listed ms)) }
{
    match member {
        MemberTree::Field(field) => {
            fields.push(Field {
                name: Ident(field.name.name.0.try_clone(alloc)?),
                ty: type_of(scope, field.annots.as_slice(), &field.ty),
                initial: initial_of(alloc, scope, later, &field.ty, &field.initial)?,
            })?;
            Ok(later || in_union)
        }
        MemberTree::Constant(_) => Ok(later),
        MemberTree::Method(_) => Ok(later),
        MemberTree::Nested(_) => Ok(later),
    }
}
