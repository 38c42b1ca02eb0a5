//! The list of the uses of types in a declaration.
ghost use Rattle.std.specs.Prelude.{◌≡◌, ◌++◌, map, IfOk, OnOk};
ghost use Rattle.aidl_syntax.specs.Trees.{Members, arg_of, body_of, map_option, member_of, members_of, method_of};
ghost use Rattle.aidl_syntax.specs.Members.{listed, members};
ghost use Rattle.aidl_names.specs.Refusals.{IsScope};
ghost use Rattle.aidl_syntax.specs.Sources.{source_of};
ghost use Rattle.type_shapes.specs.Types.{shape_in};
ghost use Rattle.type_uses.specs.TypeUses as meant;
ghost use Rattle.type_uses.specs.TypeUseViews.{seen_use};

use crate::type_use::TypeUseRef;
use aidl_base::OutOfMemory;
use aidl_names::Names;
use aidl_syntax::{ArgTree, BodyTree, MemberTree, MethodTree, TypeTree};
use std::alloc::Global;
use type_shapes::{Shape, shape_of};

/// The types that a declaration uses, by its file, its number and its body, in the order of the file.
pub fn listed_uses<'a>(
    alloc: Global,
    names: &Names<'_>,
    file: u32,
    number: u32,
    body: &'a BodyTree,
) -> Result<Vec<TypeUseRef<'a>>, OutOfMemory>
    requires { IsScope (map source_of names.now) file number }
    ensures { IfOk result (λ uses. map seen_use uses.items ≡ meant.of_members
        (shape_in (map source_of names.now) file number) (members (body_of body.now))) }
{
    match body {
        BodyTree::Parcelable(members) => { used_by(alloc, names, file, number, members.as_slice()) }
        BodyTree::Union(members) => used_by(alloc, names, file, number, members.as_slice()),
        BodyTree::Enum(_) => Ok(Vec::new(alloc)),
        BodyTree::Interface { members, .. } => {
            used_by(alloc, names, file, number, members.as_slice())
        }
    }
}

fn used_by<'a>(
    alloc: Global,
    names: &Names<'_>,
    file: u32,
    number: u32,
    members: &'a [MemberTree],
) -> Result<Vec<TypeUseRef<'a>>, OutOfMemory>
    requires { IsScope (map source_of names.now) file number }
    ensures { IfOk result (λ uses. map seen_use uses.items ≡ meant.of_members
        (shape_in (map source_of names.now) file number) (listed (members_of members.now))) }
{
    let mut uses = Vec::with_capacity(alloc, members.len())?;
    for member in members {
        add_member(names, file, number, member, &mut uses)?;
    }
    Ok(uses)
}

fn add_member<'a>(
    names: &Names<'_>,
    file: u32,
    number: u32,
    member: &'a MemberTree,
    uses: &mut Vec<TypeUseRef<'a>>,
) -> Result<(), OutOfMemory>
    requires { IsScope (map source_of names.now) file number }
    ensures { OnOk result ((ms : Members) → map seen_use uses.old.items ++ meant.of_members
        (shape_in (map source_of names.now) file number) (listed (member_of member.now ms))
        ≡ map seen_use uses.new.items ++ meant.of_members
        (shape_in (map source_of names.now) file number) (listed ms)) }
{
    match member {
        MemberTree::Field(field) => {
            let shape = shape_of(names, file, number, &field.ty);
            uses.push(TypeUseRef::Field(field, shape))?;
            Ok(())
        }
        MemberTree::Constant(constant) => {
            let shape = shape_of(names, file, number, &constant.ty);
            uses.push(TypeUseRef::Constant(constant, shape))?;
            Ok(())
        }
        MemberTree::Method(method) => add_method(names, file, number, method, uses),
        MemberTree::Nested(_) => Ok(()),
    }
}

fn add_method<'a>(
    names: &Names<'_>,
    file: u32,
    number: u32,
    method: &'a MethodTree,
    uses: &mut Vec<TypeUseRef<'a>>,
) -> Result<(), OutOfMemory>
    requires { IsScope (map source_of names.now) file number }
    ensures { OnOk result (map seen_use uses.new.items
        ≡ map seen_use uses.old.items ++ meant.of_method_tree
        (shape_in (map source_of names.now) file number) (method_of method.now)) }
{
    let result = result_shape(names, file, number, &method.result);
    uses.push(TypeUseRef::Method(method, result))?;
    add_arguments(names, file, number, method.args.as_slice(), uses)
}

fn result_shape(names: &Names<'_>, file: u32, number: u32, ty: &Option<TypeTree>) -> Option<Shape>
    requires { IsScope (map source_of names.now) file number }
    ensures { result ≡ map_option (shape_in (map source_of names.now) file number) ty.now }
{
    match ty {
        None => None,
        Some(ty) => Some(shape_of(names, file, number, ty)),
    }
}

fn add_arguments<'a>(
    names: &Names<'_>,
    file: u32,
    number: u32,
    args: &'a [ArgTree],
    uses: &mut Vec<TypeUseRef<'a>>,
) -> Result<(), OutOfMemory>
    requires { IsScope (map source_of names.now) file number }
    ensures { OnOk result (map seen_use uses.new.items ≡ map seen_use uses.old.items ++ map
        (meant.of_arg (shape_in (map source_of names.now) file number)) (map arg_of args.now)) }
{
    for arg in args {
        let shape = shape_of(names, file, number, &arg.ty);
        uses.push(TypeUseRef::Argument(arg, shape))?;
    }
    Ok(())
}
