//! The members of a declaration.
ghost use Rattle.std.specs.Prelude.{◌≡◌, ◌++◌, [], ◌∷◌, map, IfOk};
ghost use Rattle.aidl_syntax.specs.Trees.{Members, decl_of, body_of, enumerator_of, members_of, member_of};
ghost use Rattle.aidl_syntax.specs.Members.Member.{enumerator};
ghost use Rattle.aidl_syntax.specs.Members.{listed, members, member_name, body as inner};
ghost use Rattle.declared_names.specs.MemberViews.{seen_member};

use aidl_base::{OutOfMemory, Row};
use aidl_syntax::{
    BodyTree, ConstantTree, DeclTree, EnumeratorTree, FieldTree, MemberTree, MethodTree, NameTree,
};
use std::alloc::Global;

/// A member of a declaration.
#[derive(Clone, Copy)]
pub enum MemberRef<'a> {
    Field(&'a FieldTree),
    Constant(&'a ConstantTree),
    Method(&'a MethodTree),
    Enumerator(&'a EnumeratorTree),
    Nested(&'a DeclTree),
}

/// The members of a declaration in order, an enum's enumerators among them.
pub fn members<'a>(alloc: Global, tree: &'a DeclTree) -> Result<Vec<MemberRef<'a>>, OutOfMemory>
    ensures { IfOk result (λ all. map seen_member all.items ≡ members (inner (decl_of tree.now))) }
{
    members_in(alloc, &tree.body)
}

fn members_in<'a>(alloc: Global, body: &'a BodyTree) -> Result<Vec<MemberRef<'a>>, OutOfMemory>
    ensures { IfOk result (λ all. map seen_member all.items ≡ members (body_of body.now)) }
{
    match body {
        BodyTree::Parcelable(members) => listed(alloc, members),
        BodyTree::Union(members) => listed(alloc, members),
        BodyTree::Enum(enumerators) => counted(alloc, enumerators),
        BodyTree::Interface { members, .. } => listed(alloc, members),
    }
}

fn listed<'a>(
    alloc: Global,
    members: &'a Row<MemberTree>,
) -> Result<Vec<MemberRef<'a>>, OutOfMemory>
    ensures { IfOk result (λ all. map seen_member all.items ≡ listed (members_of members.now)) }
{
    let mut all = Vec::with_capacity(alloc, members.len())?;
    for member in members.as_slice() {
        all.push(of_tree(member))?;
    }
    Ok(all)
}

fn of_tree(member: &MemberTree) -> MemberRef<'_>
    ensures { (ms : Members) → seen_member result ∷ listed ms ≡ listed (member_of member.now ms) }
{
    match member {
        MemberTree::Field(field) => MemberRef::Field(field),
        MemberTree::Constant(constant) => MemberRef::Constant(constant),
        MemberTree::Method(method) => MemberRef::Method(method),
        MemberTree::Nested(tree) => MemberRef::Nested(tree),
    }
}

fn counted<'a>(
    alloc: Global,
    enumerators: &'a Row<EnumeratorTree>,
) -> Result<Vec<MemberRef<'a>>, OutOfMemory>
    ensures { IfOk result (λ all. map seen_member all.items
        ≡ map enumerator (map enumerator_of enumerators.now)) }
{
    let mut all = Vec::with_capacity(alloc, enumerators.len())?;
    for item in enumerators.as_slice() {
        all.push(MemberRef::Enumerator(item))?;
    }
    Ok(all)
}

/// The name of a member.
pub fn name_of(member: MemberRef<'_>) -> &NameTree
    ensures { result.now ≡ member_name (seen_member member.entry) }
{
    match member {
        MemberRef::Field(field) => &field.name,
        MemberRef::Constant(constant) => &constant.name,
        MemberRef::Method(method) => &method.name,
        MemberRef::Enumerator(item) => &item.name,
        MemberRef::Nested(tree) => &tree.name,
    }
}
