//! The names of types that stand in the members of a declaration.

use aidl_base::OutOfMemory;
use aidl_syntax::{BodyTree, DeclTree, DottedTree, MemberTree, MethodTree, TypeTree};
use std::alloc::{AllocError, Global};

/// The names of the types of a declaration's members in order, those of elements behind those that they are elements of.
pub fn type_names<'a>(
    alloc: Global,
    tree: &'a DeclTree,
) -> Result<Vec<&'a DottedTree>, OutOfMemory> {
    let mut names = Vec::new(alloc);
    match &tree.body {
        BodyTree::Parcelable(members) => add_members(members.as_slice(), &mut names)?,
        BodyTree::Union(members) => add_members(members.as_slice(), &mut names)?,
        BodyTree::Interface { members, .. } => add_members(members.as_slice(), &mut names)?,
        BodyTree::Enum(_) => {}
    }
    Ok(names)
}

fn add_members<'a>(
    members: &'a [MemberTree],
    names: &mut Vec<&'a DottedTree>,
) -> Result<(), AllocError> {
    for member in members {
        match member {
            MemberTree::Field(field) => add_type(&field.ty, names)?,
            MemberTree::Constant(constant) => add_type(&constant.ty, names)?,
            MemberTree::Method(method) => add_method(method, names)?,
            MemberTree::Nested(_) => {}
        }
    }
    Ok(())
}

fn add_method<'a>(
    method: &'a MethodTree,
    names: &mut Vec<&'a DottedTree>,
) -> Result<(), AllocError> {
    if let Some(ty) = &method.result {
        add_type(ty, names)?;
    }
    for arg in method.args.as_slice() {
        add_type(&arg.ty, names)?;
    }
    Ok(())
}

fn add_type<'a>(ty: &'a TypeTree, names: &mut Vec<&'a DottedTree>) -> Result<(), AllocError> {
    names.push(&ty.name)?;
    if let Some(element) = &ty.element {
        names.push(element)?;
    }
    Ok(())
}
