//! What can be asked of a tree of files, and the answer as text.
ghost use Rattle.std.specs.Prelude.{◌≤◌, length, IfOk, IfSome};
ghost use Rattle.std.specs.List.{All};
ghost use Rattle.aidl_syntax.specs.Sources.{IsOfBytes, AreOfBytes};

use crate::constants::shown_constants;
use crate::names::shown_names;
use crate::outcome::limit;
use crate::type_breaches::shown_types;
use aidl_base::{LimitName, OutOfMemory, SourceFile, Text};
use aidl_lexer::lex;
use aidl_names::{NameFault, Names, gather};
use aidl_parser::parse;
use aidl_syntax::ParsedFile;
use std::alloc::Global;

/// What is asked of a tree of files.
#[derive(Clone, Copy)]
pub enum Asked {
    /// its declarations in order with what the names of their types mean, or why they are refused
    Names,
    /// the outcomes of its constant expressions in order, and the breaches among them
    Constants,
    /// the breaches of the rules on its types
    Types,
}

/// What comes of a tree of files.
pub fn answer_of(alloc: Global, asked: Asked, files: &[SourceFile]) -> Result<String, OutOfMemory> {
    if files.len() > 4096 {
        return limit(alloc, LimitName::Files);
    }
    match parsed(alloc, files)? {
        Some(files) => {
            let files = files.as_slice();
            shown(alloc, asked, files, &gather(alloc, files))
        }
        None => Ok(String::from_str(alloc, "no tree")?),
    }
}

fn shown(
    alloc: Global,
    asked: Asked,
    files: &[ParsedFile],
    names: &Result<Names<'_>, NameFault>,
) -> Result<String, OutOfMemory> {
    match asked {
        Asked::Names => shown_names(alloc, files, names),
        Asked::Constants => shown_constants(alloc, files, names),
        Asked::Types => shown_types(alloc, files, names),
    }
}

// The trees of the files, if each has one.
fn parsed(alloc: Global, files: &[SourceFile]) -> Result<Option<Vec<ParsedFile>>, OutOfMemory>
    requires { length files.now ≤ 4096 }
    ensures { IfOk result (λ trees. IfSome trees (λ trees. AreOfBytes trees.items)) }
{
    let mut trees = Vec::new(alloc);
    for file in files {
        match parsed_file(alloc, file)? {
            Some(tree) => trees.push(tree)?,
            None => return Ok(None),
        }
    }
    Ok(Some(trees))
}

fn parsed_file(alloc: Global, file: &SourceFile) -> Result<Option<ParsedFile>, OutOfMemory>
    ensures { IfOk result (λ tree. IfSome tree IsOfBytes) }
{
    let bytes = file.bytes.as_slice();
    if bytes.len() > LimitName::FileBytes.number() as usize {
        return Ok(None);
    }
    let path = file.path.try_clone(alloc)?;
    match lex(alloc, bytes) {
        Ok(tokens) => match parse(alloc, tokens.as_slice()) {
            Ok(tree) => Ok(Some(ParsedFile { path, tree })),
            Err(_) => Ok(None),
        },
        Err(_) => Ok(None),
    }
}
