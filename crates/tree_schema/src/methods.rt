//! The methods of an interface in the schema, with their ids, arguments and results.
ghost use Rattle.std.specs.Prelude.{◌≡◌, ◌<◌, ◌+◌, ◌++◌, map, IfOk};
ghost use Rattle.aidl_syntax.specs.Members.{listed};
ghost use Rattle.aidl_syntax.specs.Trees.{Members, arg_of, member_of, members_of, method_of};
ghost use Rattle.tree_schema.specs.Parts as meant;
ghost use Rattle.tree_schema.specs.steps.Scopes.{files_of};

use crate::scope::Scope;
use crate::types::type_of;
use aidl_base::{Ident, OutOfMemory, Row};
use aidl_schema::{Arg, Direction, Method};
use aidl_syntax::{ArgTree, MemberTree, MethodTree, WayTree};
use std::alloc::Global;
use type_uses::id_of;

/// The methods among the members of an interface, each with its id: the number written, or else its position.
pub fn methods_in(
    alloc: Global,
    scope: &Scope<'_, '_>,
    oneway: bool,
    members: &[MemberTree],
) -> Result<Row<Method>, OutOfMemory>
    ensures { IfOk result (λ methods.
        methods ≡ meant.methods_in (files_of scope.now)
        scope.now.file scope.now.number oneway 0 (listed (members_of members.now))) }
{
    let mut methods = Vec::new(alloc);
    let mut before = 0;
    for member in members {
        before = add_member(alloc, scope, oneway, before, member, &mut methods)?;
    }
    Ok(Row::from_vec(methods))
}

// Adds the method that a member is, and answers how many methods stand before the next one.
fn add_member(
    alloc: Global,
    scope: &Scope<'_, '_>,
    oneway: bool,
    before: u64,
    member: &MemberTree,
    methods: &mut Vec<Method>,
) -> Result<u64, OutOfMemory>
    requires { before < 9223372036854775808 }
    ensures all { let of = meant.methods_in
        (files_of scope.now) scope.now.file scope.now.number oneway in
        IfOk result (λ next. (ms : Members)
        → methods.old.items ++ of before (listed (member_of member.now ms))
        ≡ methods.new.items ++ of next (listed ms)) }
    ensures few { IfOk result (λ next. next < before + 2) }
{
    match member {
        MemberTree::Method(method) => {
            let id = kept_id(id_of(before, method));
            methods.push(method_in(alloc, scope, oneway, id, method)?)?;
            Ok(before + 1)
        }
        MemberTree::Field(_) => Ok(before),
        MemberTree::Constant(_) => Ok(before),
        MemberTree::Nested(_) => Ok(before),
    }
}

// An id as the schema has it.
fn kept_id(id: u64) -> u32
    ensures { result ≡ meant.kept_id id }
{
    if id <= 16_777_114 { id as u32 } else { 0 }
}

fn method_in(
    alloc: Global,
    scope: &Scope<'_, '_>,
    oneway: bool,
    id: u32,
    method: &MethodTree,
) -> Result<Method, OutOfMemory>
    ensures { IfOk result (λ m. m ≡ meant.method_with (files_of scope.now)
        scope.now.file scope.now.number oneway id (method_of method.now)) }
{
    Ok(Method {
        name: Ident(method.name.name.0.try_clone(alloc)?),
        id,
        oneway: method.oneway || oneway,
        args: args_in(alloc, scope, method.args.as_slice())?,
        result: match &method.result {
            None => None,
            Some(ty) => Some(type_of(scope, method.annots.as_slice(), ty)),
        },
    })
}

fn args_in(alloc: Global, scope: &Scope<'_, '_>, args: &[ArgTree]) -> Result<Row<Arg>, OutOfMemory>
    ensures { IfOk result (λ row.
        row ≡ map (meant.arg_in (files_of scope.now) scope.now.file scope.now.number)
        (map arg_of args.now)) }
{
    let mut row = Vec::with_capacity(alloc, args.len())?;
    for arg in args {
        row.push(Arg {
            name: Ident(arg.name.name.0.try_clone(alloc)?),
            way: way_of(arg.way),
            ty: type_of(scope, arg.annots.as_slice(), &arg.ty),
        })?;
    }
    Ok(Row::from_vec(row))
}

fn way_of(way: Option<WayTree>) -> Direction
    ensures { result ≡ meant.way_of way }
{
    match way {
        None => Direction::In,
        Some(WayTree::In) => Direction::In,
        Some(WayTree::Out) => Direction::Out,
        Some(WayTree::InOut) => Direction::InOut,
    }
}
