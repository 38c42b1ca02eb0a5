//! The breaches of E2 by names that are declared twice.
ghost use Rattle.std.specs.Prelude.{◌≡◌, ◌++◌, map, take, OnOk, IfOk};
ghost use Rattle.std.specs.List.{flat_map, list_any};
ghost use Rattle.aidl_syntax.specs.Trees.{arg_of};
ghost use Rattle.aidl_syntax.specs.Members.{member_name};
ghost use Rattle.declared_names.specs.Names.{same};
ghost use Rattle.aidl_names.specs.Rules.{breaches_at, repeated, repeated_inside, argument_names, taken, is_taken};
ghost use Rattle.declared_names.specs.MemberViews.{seen_member};
ghost use Rattle.declared_names.specs.Entries.{entry_of};

use crate::rows::add_if;
use aidl_base::{Breach, Ident, OutOfMemory};
use aidl_syntax::{ArgTree, NameTree};
use declared_names::{Declarations, Found, MemberRef, members, name_of};
use indexmap::IndexSet;
use name_resolution::{meaning_of_word, number_of};
use std::alloc::Global;

/// Adds the breaches of E2 by members and arguments.
pub fn add_repeated(
    alloc: Global,
    found: &[Found<'_>],
    rows: &mut Vec<Breach>,
) -> Result<(), OutOfMemory>
    ensures { OnOk result (rows.new.items
        ≡ rows.old.items ++ breaches_at 2 (flat_map repeated_inside (map entry_of found.now))) }
{
    for f in found {
        add_repeated_inside(alloc, f, rows)?;
    }
    Ok(())
}

fn add_repeated_inside(
    alloc: Global,
    found: &Found<'_>,
    rows: &mut Vec<Breach>,
) -> Result<(), OutOfMemory>
    ensures { OnOk result (rows.new.items
        ≡ rows.old.items ++ breaches_at 2 (repeated_inside (entry_of found.now))) }
{
    let all = members(alloc, found.tree)?;
    let names = member_names(alloc, all.as_slice())?;
    add_repeated_names(alloc, found.file, names.as_slice(), rows)?;
    add_repeated_arguments(alloc, found.file, all.as_slice(), rows)?;
    Ok(())
}

fn add_repeated_arguments(
    alloc: Global,
    file: u32,
    members: &[MemberRef<'_>],
    rows: &mut Vec<Breach>,
) -> Result<(), OutOfMemory>
    ensures { OnOk result (rows.new.items ≡ rows.old.items ++ breaches_at 2 (flat_map
        (λ m. repeated file (argument_names m)) (map seen_member members.now))) }
{
    for member in members {
        let names = argument_names(alloc, *member)?;
        add_repeated_names(alloc, file, names.as_slice(), rows)?;
    }
    Ok(())
}

fn member_names<'a>(
    alloc: Global,
    members: &[MemberRef<'a>],
) -> Result<Vec<&'a NameTree>, OutOfMemory>
    ensures { IfOk result (λ names. map (λ n. n.now) names.items
        ≡ map member_name (map seen_member members.now)) }
{
    let mut names = Vec::with_capacity(alloc, members.len())?;
    for member in members {
        names.push(name_of(*member))?;
    }
    Ok(names)
}

fn argument_names(alloc: Global, member: MemberRef<'_>) -> Result<Vec<&NameTree>, OutOfMemory>
    ensures { IfOk result (λ names. map (λ n. n.now) names.items
        ≡ argument_names (seen_member member.entry)) }
{
    match member {
        MemberRef::Method(method) => names_of_arguments(alloc, method.args.as_slice()),
        MemberRef::Field(_) => Ok(Vec::new(alloc)),
        MemberRef::Constant(_) => Ok(Vec::new(alloc)),
        MemberRef::Enumerator(_) => Ok(Vec::new(alloc)),
        MemberRef::Nested(_) => Ok(Vec::new(alloc)),
    }
}

fn names_of_arguments(alloc: Global, args: &[ArgTree]) -> Result<Vec<&NameTree>, OutOfMemory>
    ensures { IfOk result (λ names. map (λ n. n.now) names.items
        ≡ map (λ a. a.name) (map arg_of args.now)) }
{
    let mut names = Vec::with_capacity(alloc, args.len())?;
    for arg in args {
        names.push(&arg.name)?;
    }
    Ok(names)
}

// Each name that an earlier one has too.
fn add_repeated_names(
    alloc: Global,
    file: u32,
    names: &[&NameTree],
    rows: &mut Vec<Breach>,
) -> Result<(), OutOfMemory>
    ensures { OnOk result (rows.new.items
        ≡ rows.old.items ++ breaches_at 2 (repeated file (map (λ n. n.now) names.now))) }
{
    let mut seen: IndexSet<&str> = IndexSet::new(alloc);
    for n in names {
        let added = seen.insert(n.name.0.as_str())?;
        add_if(!added, 2, file, n.offset, rows)?;
    }
    Ok(())
}

/// Adds the breaches of E2 by declarations.
pub fn add_taken(declarations: &Declarations<'_>, rows: &mut Vec<Breach>) -> Result<(), OutOfMemory>
    ensures { OnOk result (rows.new.items
        ≡ rows.old.items ++ breaches_at 2 (taken (map entry_of declarations.now))) }
{
    let found = declarations.as_slice();
    for (i, f) in found.iter().enumerate() {
        add_if(
            is_taken(declarations, i, f),
            2,
            f.file,
            f.tree.name.offset,
            rows,
        )?;
    }
    Ok(())
}

// Whether a declaration, behind so many, has the name of one of them or a name with a meaning of its own.
fn is_taken(declarations: &Declarations<'_>, i: usize, inner: &Found<'_>) -> bool
    ensures { result ≡ is_taken (take i (map entry_of declarations.now)) (entry_of inner.now) }
{
    if is_again(declarations, i, inner.name.0.as_slice()) {
        return true;
    }
    meaning_of_word(inner.tree.name.name.0.as_str()).is_some()
}

// Whether one of the first declarations has this canonical name.
fn is_again(declarations: &Declarations<'_>, i: usize, name: &[Ident]) -> bool
    ensures { result ≡ list_any (λ d. same d.name name.now)
        (take i (map entry_of declarations.now)) }
{
    match number_of(declarations, 0, &[], name) {
        Some(first) => (first as usize) < i,
        None => false,
    }
}
