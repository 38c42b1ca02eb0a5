//! The walk over files that finds their declarations.
ghost use Rattle.std.specs.Prelude.{◌≡◌, ◌<◌, ◌≤◌, length, map, Some, None, OnOk, IfOk, IfErr};
ghost use Rattle.aidl_syntax.specs.Trees.{Members, decl_of, body_of, members_of, member_of};
ghost use Rattle.declared_names.specs.Names.{parts_of};
ghost use Rattle.aidl_syntax.specs.Sources.{source_of};
ghost use Rattle.declared_names.specs.Declarations.{with_decl, with_body, with_members, with_file, declarations};
ghost use Rattle.declared_names.specs.Entries.{entry_of};
ghost use Rattle.declared_names.specs.Walks.{IsFull};

use crate::canonical::{copied, extended};
use crate::found::Found;
use crate::walk_fault::WalkFault;
use aidl_base::{DottedName, Ident, LimitName, Parts, Row};
use aidl_syntax::{BodyTree, DeclTree, FileTree, MemberTree, ParsedFile};
use std::alloc::Global;

/// The declarations of files, in the order of their numbers.
pub fn walk<'a>(alloc: Global, files: &'a [ParsedFile]) -> Result<Vec<Found<'a>>, WalkFault>
    requires { length files.now ≤ 4096 }
    ensures ok { IfOk result (λ found. map entry_of found.items
        ≡ declarations (map source_of files.now)) }
    ensures err { IfErr result (IsFull (declarations (map source_of files.now))) }
{
    let mut found = Vec::new(alloc);
    for (i, file) in files.iter().enumerate() {
        add_file(alloc, i as u32, file, &mut found)?;
    }
    Ok(found)
}

// The declarations of a file, behind those before it; those of other files come behind them.
fn add_file<'a>(
    alloc: Global,
    number: u32,
    file: &'a ParsedFile,
    found: &mut Vec<Found<'a>>,
) -> Result<(), WalkFault>
    ensures ok { OnOk result (map entry_of found.new.items
        ≡ with_file number (source_of file.now) (map entry_of found.old.items)) }
    ensures err { IfErr result (IsFull
        (with_file number (source_of file.now) (map entry_of found.old.items))) }
{
    let tree = &file.tree.decl;
    let name = extended(alloc, package(&file.tree), &tree.name.name)?;
    add_decl(alloc, number, None, name.as_slice(), tree, found)
}

/// The parts of a file's package, of which there are none where it has no package.
pub fn package(file: &FileTree) -> &[Ident]
    ensures { result.now ≡ parts_of file.now.package }
{
    match &file.package {
        Some(package) => package.name.0.as_slice(),
        None => &[],
    }
}

// A declaration, and those inside it.
#[cycle(decl)]
fn add_decl<'a>(
    alloc: Global,
    file: u32,
    outer: Option<u32>,
    name: &[Ident],
    tree: &'a DeclTree,
    found: &mut Vec<Found<'a>>,
) -> Result<(), WalkFault>
    ensures ok { OnOk result (map entry_of found.new.items
        ≡ with_decl file outer name.now (decl_of tree.now) (map entry_of found.old.items)) }
    ensures err { IfErr result (IsFull
        (with_decl file outer name.now (decl_of tree.now) (map entry_of found.old.items))) }
{
    let number = found.len();
    if number >= LimitName::Declarations.number() as usize {
        return Err(WalkFault::Full);
    }
    let copy = copied(alloc, name)?;
    let parts = DottedName(Parts::from_row(Row::from_vec(copy)));
    found.push(Found {
        name: parts,
        file,
        outer,
        tree,
    })?;
    add_body(alloc, file, number as u32, name, &tree.body, found)
}

#[cycle(decl)]
fn add_body<'a>(
    alloc: Global,
    file: u32,
    number: u32,
    name: &[Ident],
    body: &'a BodyTree,
    found: &mut Vec<Found<'a>>,
) -> Result<(), WalkFault>
    ensures ok { OnOk result (map entry_of found.new.items
        ≡ with_body file number name.now (body_of body.now) (map entry_of found.old.items)) }
    ensures err { IfErr result (IsFull
        (with_body file number name.now (body_of body.now) (map entry_of found.old.items))) }
{
    match body {
        BodyTree::Parcelable(members) => add_members(alloc, file, number, name, members, found),
        BodyTree::Union(members) => add_members(alloc, file, number, name, members, found),
        BodyTree::Enum(_) => Ok(()),
        BodyTree::Interface { members, .. } => {
            add_members(alloc, file, number, name, members, found)
        }
    }
}

#[cycle(decl)]
fn add_members<'a>(
    alloc: Global,
    file: u32,
    number: u32,
    name: &[Ident],
    members: &'a Row<MemberTree>,
    found: &mut Vec<Found<'a>>,
) -> Result<(), WalkFault>
    ensures ok { OnOk result (map entry_of found.new.items ≡ with_members file number name.now
        (members_of members.now) (map entry_of found.old.items)) }
    ensures err { IfErr result (IsFull (with_members file number name.now
        (members_of members.now) (map entry_of found.old.items))) }
{
    for member in members.as_slice() {
        add_member(alloc, file, number, name, member, found)?;
    }
    Ok(())
}

// What a member declares; the other members come behind it.
#[cycle(decl)]
fn add_member<'a>(
    alloc: Global,
    file: u32,
    number: u32,
    name: &[Ident],
    member: &'a MemberTree,
    found: &mut Vec<Found<'a>>,
) -> Result<(), WalkFault>
    ensures ok { OnOk result ((ms : Members)
        → with_members file number name.now (member_of member.now ms) (map entry_of found.old.items)
        ≡ with_members file number name.now ms (map entry_of found.new.items)) }
    ensures err { IfErr result (λ e. (ms : Members) → IsFull (with_members file number name.now
        (member_of member.now ms) (map entry_of found.old.items)) e) }
{
    match member {
        MemberTree::Field(_) => Ok(()),
        MemberTree::Constant(_) => Ok(()),
        MemberTree::Method(_) => Ok(()),
        MemberTree::Nested(tree) => {
            let inner = extended(alloc, name, &tree.name.name)?;
            add_decl(alloc, file, Some(number), inner.as_slice(), tree, found)
        }
    }
}
