//! The files of the canonical dump, each with its path and text.
ghost use Rattle.std.specs.Prelude.{◌≡◌, ◌≤◌, length, map, string_bytes, IfOk, OnOk};
ghost use Rattle.growing.specs.Grows.{Grows};
ghost use Rattle.aidl_schema.specs.Names.{without_last};
ghost use Rattle.api_dump.specs.Dump as meant;
ghost use Rattle.api_dump.specs.Pieces.{text_of};
ghost use Rattle.api_dump.specs.steps.Tables.{IsTable, with_file};

use crate::names::{push_dotted, push_slashed};
use crate::nested::push_declaration;
use crate::nesting::nesting;
use aidl_base::{Ident, OutOfMemory, Row, SourceFile, Text};
use aidl_schema::{Decl, Schema, law_valid};
use growing::GrowingText;
use std::alloc::Global;
use std::collections::BTreeMap;

/// The canonical dump of a schema (own): a file for each top-level declaration, at the path of its canonical name, sorted by
/// the bytes of the paths.
pub fn dump(alloc: Global, schema: &Schema) -> Result<Row<SourceFile>, OutOfMemory>
    ensures { IfOk result (λ files. map meant.seen files ≡ meant.dump_text schema.now.decls) }
{
    law_valid(schema);
    let decls = schema.decls.as_slice();
    let rows = nesting(alloc, decls)?;
    let texts = texts(alloc, decls, &rows)?;
    listed(alloc, texts)
}

// The text of each file, by its path.
fn texts(
    alloc: Global,
    decls: &[Decl],
    rows: &[Row<u32>],
) -> Result<BTreeMap<String, String>, OutOfMemory>
    requires table { IsTable decls.now rows.now }
    requires few { length decls.now ≤ 16384 }
    ensures { IfOk result (λ texts. map (λ e. (string_bytes e.0, string_bytes e.1)) texts.entries
        ≡ meant.dump_text decls.now) }
{
    let mut texts = BTreeMap::new(alloc);
    for (i, decl) in decls.iter().enumerate() {
        add_file(alloc, &mut texts, decls, rows, i as u32, decl)?;
    }
    Ok(texts)
}

// Adds the file of a declaration, where it stands in no other.
fn add_file(
    alloc: Global,
    texts: &mut BTreeMap<String, String>,
    decls: &[Decl],
    rows: &[Row<u32>],
    number: u32,
    decl: &Decl,
) -> Result<(), OutOfMemory>
    requires table { IsTable decls.now rows.now }
    requires few { length decls.now ≤ 16384 }
    ensures { OnOk result (map (λ e. (string_bytes e.0, string_bytes e.1)) texts.new.entries
        ≡ with_file decls.now (number, decl.now)
        (map (λ e. (string_bytes e.0, string_bytes e.1)) texts.old.entries)) }
{
    if decl.outer.is_none() {
        let path = path_of(alloc, decl.name.0.as_slice())?;
        let text = text_of(alloc, decls, rows, number, decl)?;
        texts.insert(path, text)?;
    }
    Ok(())
}

// The path of a canonical name.
fn path_of(alloc: Global, parts: &[Ident]) -> Result<String, OutOfMemory>
    ensures { IfOk result (λ path. string_bytes path ≡ meant.path_of parts.now) }
{
    let mut path = GrowingText::new(alloc);
    push_slashed(parts, &mut path);
    path.push_str(".aidl");
    path.into_string()
}

// The text of the file of a top-level declaration.
#[tactic(auto, using(crate::proofs::Texts::behind))]
fn text_of(
    alloc: Global,
    decls: &[Decl],
    rows: &[Row<u32>],
    number: u32,
    decl: &Decl,
) -> Result<String, OutOfMemory>
    requires table { IsTable decls.now rows.now }
    requires few { length decls.now ≤ 16384 }
    ensures { IfOk result (λ text. string_bytes text
        ≡ text_of (meant.file_pieces decls.now (number, decl.now))) }
{
    let mut text = GrowingText::new(alloc);
    push_package(decl.name.0.as_slice(), &mut text);
    push_declaration(decls, rows, decls.len(), 0, number, &mut text);
    text.into_string()
}

// Adds the line of the package of a canonical name, where there is one.
fn push_package(parts: &[Ident], text: &mut GrowingText)
    ensures { Grows text.old text.new (text_of (meant.package_line (without_last parts.now))) }
{
    match parts {
        [] | [_] => {}
        [front @ .., _] => {
            text.push_str("package ");
            push_dotted(front, text);
            text.push_str(";\n");
        }
    }
}

// The files of a table, in its order.
fn listed(
    alloc: Global,
    mut texts: BTreeMap<String, String>,
) -> Result<Row<SourceFile>, OutOfMemory>
    ensures { IfOk result (λ files. map meant.seen files
        ≡ map (λ e. (string_bytes e.0, string_bytes e.1)) texts.entries) }
{
    let mut files = Vec::with_capacity(alloc, texts.len())?;
    'texts: while let Some((path, text)) = texts.pop_first() {
        files.push(file(path, text))?;
    }
    Ok(Row::from_vec(files))
}

// The file of a path and a text.
#[tactic(auto, using(crate::proofs::Placing::path_back))]
fn file(path: String, text: String) -> SourceFile
    ensures { meant.seen result ≡ (string_bytes path, string_bytes text) }
{
    SourceFile {
        path: Text::from_string(path),
        bytes: Row::from_vec(text.into_bytes()),
    }
}
