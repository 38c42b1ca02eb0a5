//! Names asked once in each file.
ghost use Rattle.std.specs.Prelude.{◌≡◌, ◌≤◌, map, length, IfOk, OnOk};
ghost use Rattle.aidl_syntax.specs.Sources.{source_of};
ghost use Rattle.declared_names.specs.Declarations.{declarations};
ghost use Rattle.declared_names.specs.Entries.{entry_of};
ghost use Rattle.declared_names.specs.Times.{is_shared_in};
ghost use Rattle.name_resolution.specs.Resolution.{resolved};
ghost use Rattle.name_resolution.specs.Asked.{AreRight, means};

use crate::asked::Asked;
use crate::by_end::ByEnd;
use crate::by_name::{ByName, by_names};
use crate::imported::Imports;
use crate::meaning::Resolved;
use crate::resolution::{Resolver, resolved};
use aidl_base::{Ident, OutOfMemory};
use aidl_syntax::DottedTree;
use declared_names::{Declarations, Found, names_of_types};
use std::alloc::Global;
use std::marker::Model;

/// A resolver, and what some names of types mean through imports. Contracts see it as the files.
#[derive(Drop)]
pub struct Asking<'r, 'a> {
    resolver: &'r Resolver<'a>,
    asked: Asked<'a>,
}

impl<'r, 'a> Model for Asking<'r, 'a> {
    ghost use Rattle.std.specs.Prelude.{List, map};
    ghost use Rattle.std.specs.Coded.{codes};
    ghost use Rattle.aidl_syntax.specs.declared.tree.ParsedFile.{ParsedFile};
    ghost use Rattle.aidl_syntax.specs.contracts.tree.ParsedFile as parsed_file;
    ghost use Rattle.aidl_syntax.specs.Sources.{source_of};
    ghost use Rattle.declared_names.specs.Declarations.{declarations};
    ghost use Rattle.name_resolution.specs.Asked.{AreRight};

    ghost Value = { List ParsedFile };

    ghost coded = { Prim.hlevel (codes, parsed_file.the_row.coded) };

    ghost view = { λ asking. asking.resolver.now.0 };

    ghost invariant = { λ asking. AreRight asking.resolver.now.1
        (declarations (map source_of asking.resolver.now.0)) asking.asked };
}

impl<'r, 'a> Asking<'r, 'a> {
    /// Where rules are broken, those names are asked for of which several imports have the first part, each once in a file;
    /// elsewhere none.
    pub fn new(
        alloc: Global,
        broken: bool,
        resolver: &'r Resolver<'a>,
    ) -> Result<Asking<'r, 'a>, OutOfMemory>
        ensures { IfOk result (λ asking. asking ≡ resolver.now.0) }
    {
        let declarations = resolver.declarations();
        let asked = asked_where(alloc, broken, declarations, resolver.imports())?;
        Ok(Asking { resolver, asked })
    }

    /// The declarations of the files in the order of their numbers.
    pub fn found(&self) -> &'r [Found<'a>]
        ensures all { map entry_of result.now ≡ declarations (map source_of self.now) }
        ensures count { length result.now ≤ 16384 }
    {
        self.resolver.declarations().as_slice()
    }

    /// What a name means in a file, below the declaration with the number `scope`.
    pub fn resolve(&self, file: u32, scope: u32, name: &[Ident]) -> Option<Resolved>
        ensures { result ≡ resolved (map source_of self.now) file scope name.now }
    {
        let known = self.asked.known(file, name);
        resolved(self.resolver, known, file, scope, name)
    }
}

fn asked_where<'a>(
    alloc: Global,
    broken: bool,
    declarations: &Declarations<'a>,
    imports: &[Imports<'_>],
) -> Result<Asked<'a>, OutOfMemory>
    ensures { IfOk result (λ asked. AreRight imports.now (map entry_of declarations.now) asked) }
{
    if broken {
        asked_of(alloc, declarations, imports)
    } else {
        Ok(Asked::new(alloc))
    }
}

fn asked_of<'a>(
    alloc: Global,
    declarations: &Declarations<'a>,
    imports: &[Imports<'_>],
) -> Result<Asked<'a>, OutOfMemory>
    ensures { IfOk result (λ asked. AreRight imports.now (map entry_of declarations.now) asked) }
{
    let declared = ByEnd::new(alloc, declarations)?;
    let names = by_names(alloc, imports)?;
    let mut asked = Asked::new(alloc);
    for f in declarations.as_slice() {
        ask_in(alloc, &declared, names.as_slice(), f, &mut asked)?;
    }
    Ok(asked)
}

// Asks for the names of types in a declaration.
fn ask_in<'a>(
    alloc: Global,
    declared: &ByEnd<'_, '_>,
    names: &[ByName<'_, '_>],
    inside: &Found<'a>,
    asked: &mut Asked<'a>,
) -> Result<(), OutOfMemory>
    requires right { AreRight names.now (map entry_of declared.now) asked.old }
    ensures { OnOk result (AreRight names.now (map entry_of declared.now) asked.new) }
{
    let all = names_of_types(alloc, inside.tree)?;
    for name in all.as_slice() {
        ask(declared, names, inside.file, *name, asked)?;
    }
    Ok(())
}

// Asks for a name in a file, where it has to be asked for and was not asked for yet.
fn ask<'a>(
    declared: &ByEnd<'_, '_>,
    names: &[ByName<'_, '_>],
    file: u32,
    name: &'a DottedTree,
    asked: &mut Asked<'a>,
) -> Result<(), OutOfMemory>
    requires right { AreRight names.now (map entry_of declared.now) asked.old }
    ensures { OnOk result (AreRight names.now (map entry_of declared.now) asked.new) }
{
    let parts = name.name.0.as_slice();
    if is_shared(names, file, parts) && !asked.known(file, parts).is_told() {
        let meaning = means(declared, names, file, parts);
        asked.add(file, name, meaning)?;
    }
    Ok(())
}

// What a name means through the imports of the file with a number.
fn means(
    declared: &ByEnd<'_, '_>,
    names: &[ByName<'_, '_>],
    file: u32,
    name: &[Ident],
) -> Option<Resolved>
    ensures { result ≡ means names.now (map entry_of declared.now) file name.now }
{
    match names.get(file as usize) {
        Some(imports) => imports.means(declared, name),
        None => None,
    }
}

// Whether several imports of the file with a number have the first part of a name.
fn is_shared(names: &[ByName<'_, '_>], file: u32, name: &[Ident]) -> bool
    ensures { result ≡ is_shared_in names.now file name.now }
{
    match names.get(file as usize) {
        Some(imports) => imports.is_shared(name),
        None => false,
    }
}
