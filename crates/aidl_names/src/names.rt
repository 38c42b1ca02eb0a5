//! The names of a tree of files, gathered where no rule is broken.
ghost use Rattle.std.specs.Prelude.{◌≡◌, ◌≤◌, None, map, length, IfOk, IfErr};
ghost use Rattle.aidl_names.specs.declared.fault.NameFault.TheVariants as fault;
ghost use Rattle.aidl_names.specs.Breaches.{breaches};
ghost use Rattle.aidl_names.specs.Limits as limits;
ghost use Rattle.aidl_syntax.specs.Sources.{AreOfBytes, source_of};
ghost use Rattle.declared_names.specs.Declarations.{declarations};
ghost use Rattle.declared_names.specs.Called.{called_at};
ghost use Rattle.declared_names.specs.MemberViews.{seen_member};
ghost use Rattle.aidl_syntax.specs.Trees.{map_option};
ghost use Rattle.name_resolution.specs.Resolution.{resolved};
ghost use Rattle.aidl_names.specs.Refusals.{IsAccepted, IsRefusal, IsScope};
ghost use Rattle.declared_names.specs.Entries.{entry_of};

use crate::duplicates::{add_repeated, add_taken};
use crate::fault::NameFault;
use crate::files::add_wrong_files;
use crate::imports::{add_other_imports, add_unknown_imports};
use crate::limits::passed;
use crate::order::in_order;
use crate::types::add_types;
use aidl_base::{Breach, Ident, Limit, LimitName, OutOfMemory, Row};
use aidl_syntax::ParsedFile;
use declared_names::{Declarations, Found, MemberRef, WalkFault, called, members_by_name, walk};
use indexmap::IndexMap;
use name_resolution::{Resolved, Resolver};
use std::alloc::Global;
use std::marker::Model;

/// A tree of files that passes no limit on declarations and breaks none of E1 to E5. Contracts see it as its files.
pub struct Names<'a> {
    resolver: Resolver<'a>,
    members: Vec<IndexMap<&'a str, MemberRef<'a>>>,
}

impl Drop for Names<'_> {
    fn drop(self) {
        let Names {
            resolver: _,
            members: _,
        } = self;
    }
}

impl<'a> Model for Names<'a> {
    ghost use Rattle.std.specs.Prelude.{List, map, ◌≡◌};
    ghost use Rattle.std.specs.Coded.{codes};
    ghost use Rattle.aidl_syntax.specs.declared.tree.ParsedFile.{ParsedFile};
    ghost use Rattle.aidl_syntax.specs.contracts.tree.ParsedFile as parsed_file;
    ghost use Rattle.aidl_syntax.specs.Sources.{AreOfBytes, source_of};
    ghost use Rattle.declared_names.specs.Declarations.{declarations};
    ghost use Rattle.aidl_names.specs.Refusals.{IsAccepted};
    ghost use Rattle.declared_names.specs.Called.{called, seen_table};

    ghost Value = { List ParsedFile };

    ghost coded = { Prim.hlevel (codes, parsed_file.the_row.coded) };

    ghost view = { λ names. names.resolver.0 };

    ghost invariant = { λ names. record {
      of_bytes : AreOfBytes names.resolver.0;
      accepted : IsAccepted (map source_of names.resolver.0);
      called : map seen_table names.members.items
          ≡ map called (declarations (map source_of names.resolver.0));
    } };
}

impl<'a> Names<'a> {
    /// The files, which keep the condition of `gather`.
    pub fn files(&self) -> &'a [ParsedFile]
        ensures files { result.now ≡ self.now }
        ensures of_bytes { AreOfBytes self.now }
        ensures accepted { IsAccepted (map source_of self.now) }
    {
        self.resolver.files()
    }

    /// The declarations in the order of their numbers.
    pub fn decls(&self) -> &[Found<'a>]
        ensures { map entry_of result.now ≡ declarations (map source_of self.now) }
    {
        self.resolver.declarations().as_slice()
    }

    /// What a name means in a file, below the declaration with the number `scope`: the innermost one around the name.
    ///
    pub fn resolve(&self, file: u32, scope: u32, name: &[Ident]) -> Option<Resolved>
        requires { IsScope (map source_of self.now) file scope }
        ensures { result ≡ resolved (map source_of self.now) file scope name.now }
    {
        self.resolver.resolve(file, scope, name)
    }

    /// The first member with a name of the declaration with a number, and None where there is none.
    pub fn member(&self, number: u32, name: &Ident) -> Option<MemberRef<'a>>
        ensures { map_option seen_member result
            ≡ called_at (declarations (map source_of self.now)) number name.now }
    {
        match self.members.get(number as usize) {
            Some(table) => called(table, name),
            None => None,
        }
    }
}

/// The declarations of the files of a tree. A limit comes before all breaches.
pub fn gather<'a>(alloc: Global, files: &'a [ParsedFile]) -> Result<Names<'a>, NameFault>
    requires { AreOfBytes files.now }
    ensures ok { IfOk result (λ names. (names ≡ files.now) × IsAccepted (map source_of files.now)) }
    ensures err { IfErr result (IsRefusal (map source_of files.now)) }
{
    let found = within_limits(alloc, files)?;
    let resolver = Resolver::new(alloc, files, Declarations::new(alloc, found)?)?;
    let rows = breaches(alloc, &resolver)?;
    if rows.len() > 0 {
        return Err(NameFault::Breaches(rows));
    }
    let members = members_by_name(alloc, resolver.declarations().as_slice())?;
    Ok(Names { resolver, members })
}

// The declarations of files that pass no limit on them.
fn within_limits<'a>(alloc: Global, files: &'a [ParsedFile]) -> Result<Vec<Found<'a>>, NameFault>
    requires { AreOfBytes files.now }
    ensures found { IfOk result (λ found. map entry_of found.items
        ≡ declarations (map source_of files.now)) }
    ensures few { IfOk result (λ found. length found.items ≤ 16384) }
    ensures passed { IfOk result (λ found. limits.passed (declarations (map source_of files.now)) ≡ None) }
    ensures err { IfErr result (IsRefusal (map source_of files.now)) }
{
    let found = match walk(alloc, files) {
        Ok(found) => found,
        Err(WalkFault::Full) => return Err(limit(LimitName::Declarations)),
        Err(WalkFault::OutOfMemory) => return Err(NameFault::OutOfMemory),
    };
    match passed(alloc, found.as_slice())? {
        None => Ok(found),
        Some(which) => Err(limit(which)),
    }
}

fn limit(which: LimitName) -> NameFault
    ensures { result ≡ fault.Limit (record { which = which }) }
{
    NameFault::Limit(Limit { which })
}

// The breaches of E1 to E5.
fn breaches(alloc: Global, resolver: &Resolver<'_>) -> Result<Row<Breach>, OutOfMemory>
    requires files { length resolver.now.0 ≤ 4096 }
    ensures { IfOk result (λ rows. rows ≡ breaches (map source_of resolver.now.0)) }
{
    let files = resolver.files();
    let declarations = resolver.declarations();
    let mut rows = Vec::new(alloc);
    add_wrong_files(alloc, files, &mut rows)?;
    add_repeated(alloc, declarations.as_slice(), &mut rows)?;
    add_taken(declarations, &mut rows)?;
    add_other_imports(alloc, files, &mut rows)?;
    add_unknown_imports(declarations, files, &mut rows)?;
    add_types(alloc, resolver, &mut rows)?;
    in_order(alloc, rows.as_slice())
}
