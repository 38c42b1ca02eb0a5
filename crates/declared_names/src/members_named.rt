//! The members of declarations by their names.
ghost use Rattle.std.specs.Prelude.{◌≡◌, ℕ, List, map, IfOk};
ghost use Rattle.std.specs.List.{find};
ghost use Rattle.std.specs.Str.{bytes_eq};
ghost use Rattle.indexmap.specs.IndexMap.{get_by};
ghost use Rattle.aidl_base.specs.declared.name.Ident.{Ident as Name};
ghost use Rattle.aidl_syntax.specs.Trees.{decl_of, map_option};
ghost use Rattle.aidl_syntax.specs.Members.{members, body as inner};
ghost use Rattle.declared_names.specs.Called.{called, is_called, seen_table};
ghost use Rattle.declared_names.specs.MemberViews.{seen_member};
ghost use Rattle.declared_names.specs.Names.{text};
ghost use Rattle.declared_names.specs.Entries.{entry_of};

use crate::found::Found;
use crate::member_refs::{MemberRef, members, name_of};
use aidl_base::{Ident, OutOfMemory};
use aidl_syntax::DeclTree;
use indexmap::IndexMap;
use std::alloc::Global;

/// For each declaration its members by their names, the first of each name.
pub fn members_by_name<'a>(
    alloc: Global,
    found: &[Found<'a>],
) -> Result<Vec<IndexMap<&'a str, MemberRef<'a>>>, OutOfMemory>
    ensures { IfOk result (λ tables. map seen_table tables.items
        ≡ map called (map entry_of found.now)) }
{
    let mut tables = Vec::with_capacity(alloc, found.len())?;
    for f in found {
        tables.push(table_of(alloc, f.tree)?)?;
    }
    Ok(tables)
}

fn table_of<'a>(
    alloc: Global,
    tree: &'a DeclTree,
) -> Result<IndexMap<&'a str, MemberRef<'a>>, OutOfMemory>
    ensures { IfOk result (λ table. seen_table table
        ≡ (λ (name : Name). find (is_called (text name)) (members (inner (decl_of tree.now))))) }
{
    let all = members(alloc, tree)?;
    by_name(alloc, all.as_slice())
}

// From the last member on, so that the first of a name stays.
fn by_name<'a>(
    alloc: Global,
    members: &[MemberRef<'a>],
) -> Result<IndexMap<&'a str, MemberRef<'a>>, OutOfMemory>
    ensures { IfOk result (λ table. (bytes : List ℕ) → map_option seen_member (get_by
        (λ k. bytes_eq bytes k.now) table) ≡ find (is_called bytes) (map seen_member members.now)) }
{
    let mut table = IndexMap::with_capacity(alloc, members.len())?;
    for i in (0..members.len()).rev() {
        let member = members[i];
        table.insert(name_of(member).name.0.as_str(), member)?;
    }
    Ok(table)
}

/// What a table has for a name.
pub fn called<'a>(table: &IndexMap<&str, MemberRef<'a>>, name: &Ident) -> Option<MemberRef<'a>>
    ensures { map_option seen_member result ≡ seen_table table.now name.now }
{
    table.get(name.0.as_str()).copied()
}
