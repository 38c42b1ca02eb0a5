//! The constants of a declaration in the schema, sorted by their names.
ghost use Rattle.std.specs.Prelude.{◌≡◌, string_bytes, IfOk, OnOk};
ghost use Rattle.std.specs.List.{fold};
ghost use Rattle.aidl_syntax.specs.Members.{listed, members};
ghost use Rattle.aidl_syntax.specs.Trees.{Members, body_of, constant_of, member_of, members_of};
ghost use Rattle.tree_schema.specs.Keyed.{IsKeyed, values_at};
ghost use Rattle.tree_schema.specs.Parts as meant;
ghost use Rattle.tree_schema.specs.steps.Scopes.{files_of, outcomes_of};

use crate::scope::Scope;
use crate::types::type_of;
use crate::values::constant_value;
use aidl_base::{Ident, OutOfMemory, Row};
use aidl_schema::Constant;
use aidl_syntax::{BodyTree, ConstantTree, MemberTree};
use std::alloc::Global;
use std::collections::BTreeMap;

/// The constants of a declaration, in the order of the bytes of their names; an enum has none.
pub fn constants_of(
    alloc: Global,
    scope: &Scope<'_, '_>,
    body: &BodyTree,
) -> Result<Row<Constant>, OutOfMemory>
    ensures { IfOk result (λ constants. constants
        ≡ meant.constants_in (files_of scope.now) (outcomes_of scope.now)
        scope.now.file scope.now.number (members (body_of body.now))) }
{
    match body {
        BodyTree::Parcelable(members) => constants_in(alloc, scope, members.as_slice()),
        BodyTree::Union(members) => constants_in(alloc, scope, members.as_slice()),
        BodyTree::Enum(_) => Ok(Row::new(alloc)),
        BodyTree::Interface { members, .. } => constants_in(alloc, scope, members.as_slice()),
    }
}

fn constants_in(
    alloc: Global,
    scope: &Scope<'_, '_>,
    members: &[MemberTree],
) -> Result<Row<Constant>, OutOfMemory>
    ensures { IfOk result (λ constants. constants
        ≡ meant.constants_in (files_of scope.now) (outcomes_of scope.now)
        scope.now.file scope.now.number (listed (members_of members.now))) }
{
    let mut by_name = BTreeMap::new(alloc);
    for member in members {
        add_member(alloc, scope, member, &mut by_name)?;
    }
    Ok(Row::from_vec(by_name.into_values().collect(alloc)?))
}

// Adds the constant that a member is.
fn add_member(
    alloc: Global,
    scope: &Scope<'_, '_>,
    member: &MemberTree,
    by_name: &mut BTreeMap<String, Constant>,
) -> Result<(), OutOfMemory>
    requires { IsKeyed (λ t. string_bytes t) meant.bytes_of by_name.old.entries }
    ensures keyed { OnOk result (IsKeyed (λ t. string_bytes t) meant.bytes_of by_name.new.entries) }
    ensures all { let of = meant.listed_constants
        (files_of scope.now) (outcomes_of scope.now) scope.now.file scope.now.number in
        OnOk result ((ms : Members)
        → fold meant.put (values_at by_name.old.entries) (of (listed (member_of member.now ms)))
        ≡ fold meant.put (values_at by_name.new.entries) (of (listed ms))) }
{
    match member {
        MemberTree::Constant(constant) => {
            let constant = constant_in(alloc, scope, constant)?;
            let name = String::from_str(alloc, constant.name.0.as_str())?;
            by_name.insert(name, constant)?;
            Ok(())
        }
        MemberTree::Field(_) => Ok(()),
        MemberTree::Method(_) => Ok(()),
        MemberTree::Nested(_) => Ok(()),
    }
}

fn constant_in(
    alloc: Global,
    scope: &Scope<'_, '_>,
    constant: &ConstantTree,
) -> Result<Constant, OutOfMemory>
    ensures { IfOk result (λ c. c
        ≡ meant.constant_in (files_of scope.now) (outcomes_of scope.now)
        scope.now.file scope.now.number (constant_of constant.now)) }
{
    let ty = type_of(scope, constant.annots.as_slice(), &constant.ty);
    Ok(Constant {
        name: Ident(constant.name.name.0.try_clone(alloc)?),
        ty: ty.base,
        value: constant_value(alloc, scope, &constant.value)?,
    })
}
