//! What a name means in a file of a tree.
ghost use Rattle.std.specs.Prelude.{◌≡◌, ◌++◌, map, length, IfOk};
ghost use Rattle.aidl_syntax.specs.Sources.{source_of};
ghost use Rattle.declared_names.specs.Declarations.{declarations as declarations_of};
ghost use Rattle.name_resolution.specs.Resolution.{candidates, first_declared, enclosing, left_out_words, meaning_in, meaning_of_word, own_meaning, meaning_in_file, resolved};
ghost use Rattle.name_resolution.specs.Imports.{meant_through, meant_in};
ghost use Rattle.declared_names.specs.Entries.{entry_of};
ghost use Rattle.name_resolution.specs.Asked.{Knows, means};

use crate::asked::Known;
use crate::imported::{Imports, imports_of_files, in_imports};
use crate::meaning::{BuiltinName, Resolved};
use crate::numbers::declared;
use aidl_base::{Ident, OutOfMemory};
use aidl_syntax::ParsedFile;
use declared_names::{Declarations, package, with_parts};
use std::alloc::Global;
use std::marker::Model;

/// The files of a tree with their declarations, and for each file the imports that are kept. Contracts see it as the files
/// and these imports.
pub struct Resolver<'a> {
    files: &'a [ParsedFile],
    declarations: Declarations<'a>,
    imports: Vec<Imports<'a>>,
}

impl Drop for Resolver<'_> {
    fn drop(self) {
        let Resolver {
            files: _,
            declarations: _,
            imports: _,
        } = self;
    }
}

impl<'a> Model for Resolver<'a> {
    ghost use Rattle.std.specs.Prelude.{List, map, ◌≡◌};
    ghost use Rattle.std.specs.Coded.{codes};
    ghost use Rattle.aidl_syntax.specs.declared.tree.DottedTree.{DottedTree};
    ghost use Rattle.aidl_syntax.specs.declared.tree.ParsedFile.{ParsedFile};
    ghost use Rattle.aidl_syntax.specs.contracts.tree.ParsedFile as parsed_file;
    ghost use Rattle.aidl_syntax.specs.Sources.{source_of};
    ghost use Rattle.declared_names.specs.Declarations.{declarations as declarations_of};
    ghost use Rattle.declared_names.specs.Entries.{entry_of};
    ghost use Rattle.name_resolution.specs.Imports.{meant_through, meant_in};

    ghost Value = { List ParsedFile × List (List DottedTree) };

    ghost coded = { Prim.hlevel (codes, parsed_file.the_row.coded) };

    ghost view = { λ resolver. (resolver.files.now, resolver.imports.items) };

    ghost invariant = { λ resolver. record {
      kept : map meant_through resolver.imports.items
          ≡ map meant_in (map source_of resolver.files.now);
      all : map entry_of resolver.declarations ≡ declarations_of (map source_of resolver.files.now);
    } };
}

impl<'a> Resolver<'a> {
    /// For files and their declarations.
    pub fn new(
        alloc: Global,
        files: &'a [ParsedFile],
        declarations: Declarations<'a>,
    ) -> Result<Resolver<'a>, OutOfMemory>
        requires { map entry_of declarations ≡ declarations_of (map source_of files.now) }
        ensures { IfOk result (λ resolver. resolver.0 ≡ files.now) }
    {
        let imports = imports_of_files(alloc, files)?;
        Ok(Resolver {
            files,
            declarations,
            imports,
        })
    }

    /// The files.
    pub fn files(&self) -> &'a [ParsedFile]
        ensures { result.now ≡ self.now.0 }
    {
        self.files
    }

    /// The declarations of the files.
    pub fn declarations(&self) -> &Declarations<'a>
        ensures { map entry_of result.now ≡ declarations_of (map source_of self.now.0) }
    {
        &self.declarations
    }

    /// The imports of each file that are kept.
    pub fn imports(&self) -> &[Imports<'a>]
        ensures same { result.now ≡ self.now.1 }
        ensures meant { map meant_through self.now.1 ≡ map meant_in (map source_of self.now.0) }
    {
        self.imports.as_slice()
    }

    /// What a name means in a file, below the declaration with the number `scope`.
    pub fn resolve(&self, file: u32, scope: u32, name: &[Ident]) -> Option<Resolved>
        ensures { result ≡ resolved (map source_of self.now.0) file scope name.now }
    {
        resolved(self, Known::Unasked, file, scope, name)
    }
}

/// What a name means in the file with that number, below the declaration with the number `scope`, if so much is known of
/// what it means through imports.
pub fn resolved(
    resolver: &Resolver<'_>,
    known: Known,
    number: u32,
    scope: u32,
    name: &[Ident],
) -> Option<Resolved>
    requires known { Knows (means resolver.now.1
        (declarations_of (map source_of resolver.now.0)) number name.now) known }
    ensures { result ≡ resolved (map source_of resolver.now.0) number scope name.now }
{
    let files = resolver.files();
    let declarations = resolver.declarations();
    let all = resolver.imports();
    match files.get(number as usize) {
        Some(file) => {
            let imports = &all[number as usize];
            meaning_in_file(declarations, imports, known, file, scope, name)
        }
        None => None,
    }
}

fn meaning_in_file(
    declarations: &Declarations<'_>,
    imports: &Imports<'_>,
    known: Known,
    file: &ParsedFile,
    scope: u32,
    name: &[Ident],
) -> Option<Resolved>
    requires imports { meant_through imports.now ≡ meant_in (source_of file.now) }
    requires known { Knows
        (meant_through imports.now (map entry_of declarations.now) name.now) known }
    ensures { result ≡ meaning_in_file (map entry_of declarations.now)
        (source_of file.now) scope name.now }
{
    match own_meaning(name) {
        Some(meaning) => Some(meaning),
        None => first_declared(declarations, imports, known, file, scope, name),
    }
}

// The first candidate that is declared.
fn first_declared(
    declarations: &Declarations<'_>,
    imports: &Imports<'_>,
    known: Known,
    file: &ParsedFile,
    scope: u32,
    name: &[Ident],
) -> Option<Resolved>
    requires imports { meant_through imports.now ≡ meant_in (source_of file.now) }
    requires known { Knows
        (meant_through imports.now (map entry_of declarations.now) name.now) known }
    ensures { result ≡ first_declared (map entry_of declarations.now)
        (candidates (map entry_of declarations.now) (source_of file.now) scope name.now) }
{
    let found = declarations.as_slice();
    match declared(declarations, 0, &[], name) {
        Some(meaning) => return Some(meaning),
        None => {}
    }
    match in_enclosing(declarations, found.len(), Some(scope), name) {
        Some(meaning) => return Some(meaning),
        None => {}
    }
    match through_imports(declarations, imports, known, name) {
        Some(meaning) => return Some(meaning),
        None => {}
    }
    let front = package(&file.tree);
    declared(declarations, with_parts(0, front), front, name)
}

// Through the imports, where it isn't known yet.
fn through_imports(
    declarations: &Declarations<'_>,
    imports: &Imports<'_>,
    known: Known,
    name: &[Ident],
) -> Option<Resolved>
    requires known { Knows
        (meant_through imports.now (map entry_of declarations.now) name.now) known }
    ensures { result ≡ meant_through imports.now (map entry_of declarations.now) name.now }
{
    match known {
        Known::Means(meaning) => meaning,
        Known::Unasked => in_imports(declarations, imports, name),
    }
}

// Through the enclosing declarations, from inside out.
fn in_enclosing(
    declarations: &Declarations<'_>,
    levels: usize,
    scope: Option<u32>,
    name: &[Ident],
) -> Option<Resolved>
    ensures { result ≡ first_declared (map entry_of declarations.now) (map
        (λ around. around ++ name.now) (enclosing (map entry_of declarations.now) levels scope)) }
{
    if levels == 0 {
        return None;
    }
    let number = scope?;
    let found = declarations.as_slice();
    let around = found.get(number as usize)?;
    let mark = declarations.mark(number as usize);
    match declared(declarations, mark, around.name.0.as_slice(), name) {
        Some(meaning) => Some(meaning),
        None => in_enclosing(declarations, levels - 1, around.outer, name),
    }
}

// What a name of one part means by itself.
fn own_meaning(name: &[Ident]) -> Option<Resolved>
    ensures { result ≡ own_meaning name.now }
{
    match name {
        [word] => meaning_of_word(word.0.as_str()),
        _ => None,
    }
}

/// The meaning of a built-in type, of the list word or of a left-out name.
#[tactic(auto, unfolding(crate::specs::Resolution::meaning_of_word))]
pub fn meaning_of_word(word: &str) -> Option<Resolved>
    ensures { result ≡ meaning_of_word word.now }
{
    match word {
        "boolean" => Some(Resolved::Builtin(BuiltinName::Boolean)),
        "byte" => Some(Resolved::Builtin(BuiltinName::Byte)),
        "char" => Some(Resolved::Builtin(BuiltinName::Char)),
        "int" => Some(Resolved::Builtin(BuiltinName::Int)),
        "long" => Some(Resolved::Builtin(BuiltinName::Long)),
        "String" => Some(Resolved::Builtin(BuiltinName::Text)),
        "List" => Some(Resolved::ListWord),
        _ => left_out_meaning(word),
    }
}

// The meaning of a left-out name.
fn left_out_meaning(word: &str) -> Option<Resolved>
    ensures { result ≡ meaning_in left_out_words word.now }
{
    match word {
        "float" | "double" | "IBinder" | "FileDescriptor" => Some(Resolved::LeftOut),
        "ParcelFileDescriptor" | "ParcelableHolder" => Some(Resolved::LeftOut),
        "Map" | "CharSequence" => Some(Resolved::LeftOut),
        _ => None,
    }
}
