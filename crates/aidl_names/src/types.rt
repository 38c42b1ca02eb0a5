//! The breaches of E4 and E5 by names of types.
ghost use Rattle.std.specs.Prelude.{◌≡◌, ◌++◌, map, OnOk};
ghost use Rattle.aidl_syntax.specs.Members.{body};
ghost use Rattle.aidl_syntax.specs.Trees.{decl_of};
ghost use Rattle.aidl_syntax.specs.Sources.{source_of};
ghost use Rattle.aidl_names.specs.Rules.{UnknownType, LeftOutType, breaches_at, types_in, types_where, is_left_out, is_interface, is_interface_body};
ghost use Rattle.aidl_names.specs.TypeRules.{breaks_of, rule_of};
ghost use Rattle.declared_names.specs.Entries.{entry_of};

use crate::rows::add_if;
use aidl_base::{Breach, Ident, OutOfMemory};
use aidl_syntax::{BodyTree, DeclTree};
use declared_names::{Found, names_of_types};
use name_resolution::{Asking, Resolved, Resolver};
use std::alloc::Global;

/// A rule on the names of types.
#[derive(Clone, Copy)]
enum TypeRule {
    /// E4
    Unknown,
    /// E5
    LeftOut,
}

impl TypeRule {
    fn number(self) -> u8
        ensures { result ≡ rule_of self }
    {
        match self {
            TypeRule::Unknown => 4,
            TypeRule::LeftOut => 5,
        }
    }
}

/// Adds the breaches of E4 and of E5, behind those of the other rules. Where there are none of these no last part has two
/// imports that differ, so each name is tried behind one import at most.
pub fn add_types(
    alloc: Global,
    resolver: &Resolver<'_>,
    rows: &mut Vec<Breach>,
) -> Result<(), OutOfMemory>
    ensures { OnOk result (rows.new.items ≡ rows.old.items
        ++ breaches_at 4 (UnknownType (map source_of resolver.now.0))
        ++ breaches_at 5 (LeftOutType (map source_of resolver.now.0))) }
{
    let asking = Asking::new(alloc, !rows.is_empty(), resolver)?;
    add_types_by(alloc, &asking, TypeRule::Unknown, rows)?;
    add_types_by(alloc, &asking, TypeRule::LeftOut, rows)
}

// Adds the breaches of a rule on the names of types.
fn add_types_by(
    alloc: Global,
    asking: &Asking<'_, '_>,
    rule: TypeRule,
    rows: &mut Vec<Breach>,
) -> Result<(), OutOfMemory>
    ensures { OnOk result (rows.new.items ≡ rows.old.items ++ breaches_at (rule_of rule)
        (types_where (breaks_of rule (map source_of asking.now)) (map source_of asking.now))) }
{
    let found = asking.found();
    for (i, f) in found.iter().enumerate() {
        add_types_in(alloc, asking, rule, i as u32, f, rows)?;
    }
    Ok(())
}

// Those in one declaration, which has this number.
fn add_types_in(
    alloc: Global,
    asking: &Asking<'_, '_>,
    rule: TypeRule,
    number: u32,
    inside: &Found<'_>,
    rows: &mut Vec<Breach>,
) -> Result<(), OutOfMemory>
    ensures { OnOk result (rows.new.items ≡ rows.old.items ++ breaches_at (rule_of rule)
        (types_in (breaks_of rule (map source_of asking.now)) number (entry_of inside.now))) }
{
    let names = names_of_types(alloc, inside.tree)?;
    for name in names.as_slice() {
        let broken = breaks(asking, rule, inside.file, number, name.name.0.as_slice());
        add_if(broken, rule.number(), inside.file, name.offset, rows)?;
    }
    Ok(())
}

fn breaks(asking: &Asking<'_, '_>, rule: TypeRule, file: u32, scope: u32, name: &[Ident]) -> bool
    ensures { result ≡ breaks_of rule (map source_of asking.now) file scope name.now }
{
    let meaning = asking.resolve(file, scope, name);
    match rule {
        TypeRule::Unknown => meaning.is_none(),
        TypeRule::LeftOut => is_left_out(asking.found(), meaning),
    }
}

fn is_left_out(found: &[Found<'_>], meaning: Option<Resolved>) -> bool
    ensures { result ≡ is_left_out (map entry_of found.now) meaning }
{
    match meaning {
        Some(Resolved::LeftOut) => true,
        Some(Resolved::Declared(number)) => is_interface(found, number),
        Some(Resolved::Builtin(_)) => false,
        Some(Resolved::ListWord) => false,
        None => false,
    }
}

fn is_interface(found: &[Found<'_>], number: u32) -> bool
    ensures { result ≡ is_interface (map entry_of found.now) number }
{
    match found.get(number as usize) {
        Some(f) => is_interface_tree(f.tree),
        None => false,
    }
}

fn is_interface_tree(tree: &DeclTree) -> bool
    ensures { result ≡ is_interface_body (body (decl_of tree.now)) }
{
    match &tree.body {
        BodyTree::Parcelable(_) => false,
        BodyTree::Union(_) => false,
        BodyTree::Enum(_) => false,
        BodyTree::Interface { .. } => true,
    }
}
