//! The names of types in a declaration.
ghost use Rattle.std.specs.Prelude.{◌≡◌, ◌++◌, map, OnOk, IfOk};
ghost use Rattle.std.specs.List.{flat_map};
ghost use Rattle.aidl_syntax.specs.Members.{members, body};
ghost use Rattle.aidl_syntax.specs.Trees.{arg_of, decl_of};
ghost use Rattle.declared_names.specs.MemberViews.{seen_member};
ghost use Rattle.declared_names.specs.TypeNames.{type_names, names_of_type};

use crate::member_refs::{MemberRef, members};
use aidl_base::OutOfMemory;
use aidl_syntax::{ArgTree, DeclTree, DottedTree, TypeTree};
use std::alloc::Global;

/// The names of types in a declaration, but for those in nested declarations.
pub fn names_of_types(alloc: Global, tree: &DeclTree) -> Result<Vec<&DottedTree>, OutOfMemory>
    ensures { IfOk result (λ names. map (λ d. d.now) names.items
        ≡ flat_map type_names (members (body (decl_of tree.now)))) }
{
    let all = members(alloc, tree)?;
    let mut names = Vec::new(alloc);
    for member in all.as_slice() {
        add_member_types(*member, &mut names)?;
    }
    Ok(names)
}

fn add_member_types<'a>(
    member: MemberRef<'a>,
    names: &mut Vec<&'a DottedTree>,
) -> Result<(), OutOfMemory>
    ensures { OnOk result (map (λ d. d.now) names.new.items
        ≡ map (λ d. d.now) names.old.items ++ type_names (seen_member member.entry)) }
{
    match member {
        MemberRef::Field(field) => add_type(&field.ty, names),
        MemberRef::Constant(constant) => add_type(&constant.ty, names),
        MemberRef::Method(method) => {
            if let Some(ty) = &method.result {
                add_type(ty, names)?;
            }
            add_argument_types(method.args.as_slice(), names)
        }
        MemberRef::Enumerator(_) => Ok(()),
        MemberRef::Nested(_) => Ok(()),
    }
}

fn add_argument_types<'a>(
    args: &'a [ArgTree],
    names: &mut Vec<&'a DottedTree>,
) -> Result<(), OutOfMemory>
    ensures { OnOk result (map (λ d. d.now) names.new.items ≡ map
        (λ d. d.now) names.old.items ++ flat_map (λ a. names_of_type a.ty) (map arg_of args.now)) }
{
    for arg in args {
        add_type(&arg.ty, names)?;
    }
    Ok(())
}

fn add_type<'a>(ty: &'a TypeTree, names: &mut Vec<&'a DottedTree>) -> Result<(), OutOfMemory>
    ensures { OnOk result (map (λ d. d.now) names.new.items
        ≡ map (λ d. d.now) names.old.items ++ names_of_type ty.now) }
{
    names.push(&ty.name)?;
    if let Some(element) = &ty.element {
        names.push(element)?;
    }
    Ok(())
}
