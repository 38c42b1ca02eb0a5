//! The limits on declarations, members and arguments.
ghost use Rattle.std.specs.Prelude.{◌≡◌, ◌≤◌, map, length, IfOk, IfNone};
ghost use Rattle.std.specs.List.{list_any};
ghost use Rattle.aidl_syntax.specs.Members.{members};
ghost use Rattle.aidl_names.specs.Limits.{passed, has_many_members, has_long_method, is_long_method};
ghost use Rattle.declared_names.specs.MemberViews.{seen_member};
ghost use Rattle.declared_names.specs.Entries.{entry_of};

use aidl_base::{LimitName, OutOfMemory};
use declared_names::{Found, MemberRef, members};
use std::alloc::Global;

/// The first limit on declarations, members and arguments that declarations pass.
pub fn passed(alloc: Global, found: &[Found<'_>]) -> Result<Option<LimitName>, OutOfMemory>
    ensures limit { IfOk result (λ limit. limit ≡ passed (map entry_of found.now)) }
    ensures few { IfOk result (λ limit. IfNone limit (length found.now ≤ 16384)) }
{
    if found.len() > LimitName::Declarations.number() as usize {
        return Ok(Some(LimitName::Declarations));
    }
    if any_with_many_members(alloc, found)? {
        return Ok(Some(LimitName::Members));
    }
    if any_with_long_method(alloc, found)? {
        return Ok(Some(LimitName::Arguments));
    }
    Ok(None)
}

fn any_with_many_members(alloc: Global, found: &[Found<'_>]) -> Result<bool, OutOfMemory>
    ensures { IfOk result (λ any. any ≡ list_any has_many_members (map entry_of found.now)) }
{
    for f in found {
        let all = members(alloc, f.tree)?;
        if all.len() > LimitName::Members.number() as usize {
            return Ok(true);
        }
    }
    Ok(false)
}

fn any_with_long_method(alloc: Global, found: &[Found<'_>]) -> Result<bool, OutOfMemory>
    ensures { IfOk result (λ any. any ≡ list_any has_long_method (map entry_of found.now)) }
{
    for f in found {
        let all = members(alloc, f.tree)?;
        if any_long(all.as_slice()) {
            return Ok(true);
        }
    }
    Ok(false)
}

fn any_long(members: &[MemberRef<'_>]) -> bool
    ensures { result ≡ list_any is_long_method (map seen_member members.now) }
{
    for member in members {
        if is_long(*member) {
            return true;
        }
    }
    false
}

fn is_long(member: MemberRef<'_>) -> bool
    ensures { result ≡ is_long_method (seen_member member.entry) }
{
    match member {
        MemberRef::Method(method) => method.args.len() > LimitName::Arguments.number() as usize,
        MemberRef::Field(_) => false,
        MemberRef::Constant(_) => false,
        MemberRef::Enumerator(_) => false,
        MemberRef::Nested(_) => false,
    }
}
