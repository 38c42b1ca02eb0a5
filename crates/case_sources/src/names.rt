//! Declarations, the meanings of the names of their types, and breaches, as text.
ghost use Rattle.std.specs.Prelude.{map};
ghost use Rattle.aidl_syntax.specs.Sources.{source_of};
ghost use Rattle.aidl_names.specs.Refusals.{IsScope};

use crate::outcome::limit;
use crate::type_names::type_names;
use aidl_base::{Breach, DottedName, OutOfMemory};
use aidl_names::{NameFault, Names};
use aidl_syntax::ParsedFile;
use declared_names::Found;
use growing::GrowingText;
use name_resolution::Resolved;
use std::alloc::Global;

/// The declarations of a tree in order, each with what the names of its types mean; or its limit; or its breaches, which are
/// only counted where there are more than eight.
pub fn shown_names(
    alloc: Global,
    files: &[ParsedFile],
    names: &Result<Names<'_>, NameFault>,
) -> Result<String, OutOfMemory> {
    match names {
        Ok(names) => shown_declarations(alloc, names),
        Err(NameFault::Limit(passed)) => limit(alloc, passed.which),
        Err(NameFault::Breaches(rows)) => shown_breaches(alloc, files, rows.as_slice()),
        Err(NameFault::OutOfMemory) => Err(OutOfMemory),
    }
}

/// Breaches as text.
pub fn shown_breaches(
    alloc: Global,
    files: &[ParsedFile],
    rows: &[Breach],
) -> Result<String, OutOfMemory> {
    let mut text = GrowingText::new(alloc);
    push_breaches(files, rows, &mut text);
    text.into_string()
}

/// Adds each breach with its rule, file and offset; or how many they are, where there are more than eight.
pub fn push_breaches(files: &[ParsedFile], rows: &[Breach], text: &mut GrowingText) {
    if rows.len() > 8 {
        write!(text, "{} breaches", rows.len());
        return;
    }
    let mut before = "";
    for row in rows {
        let path = match files.get(row.file as usize) {
            Some(file) => file.path.as_str(),
            None => "no file",
        };
        write!(text, "{before}E{} {path} {}", row.rule, row.offset);
        before = ", ";
    }
}

fn shown_declarations(alloc: Global, names: &Names<'_>) -> Result<String, OutOfMemory> {
    let mut text = GrowingText::new(alloc);
    for (i, found) in names.decls().iter().enumerate() {
        let Ok(number) = u32::try_from(i) else {
            return text.into_string();
        };
        comma(&mut text);
        write!(text, "{number} ");
        push_name(&found.name, &mut text);
        push_meanings(alloc, names, number, found, &mut text);
    }
    text.into_string()
}

/// A comma behind what there is already.
pub fn comma(text: &mut GrowingText) {
    if !text.text.is_empty() {
        text.push_str(", ");
    }
}

/// Adds the parts of a name with dots between them.
pub fn push_name(name: &DottedName, text: &mut GrowingText) {
    let mut before = "";
    for part in name.0.as_slice() {
        text.push_str(before);
        text.push_str(part.0.as_str());
        before = ".";
    }
}

// Adds the names of the types of a declaration, with their meanings, in parentheses, if it has some.
fn push_meanings(
    alloc: Global,
    names: &Names<'_>,
    number: u32,
    found: &Found<'_>,
    text: &mut GrowingText,
)
    requires { IsScope (map source_of names.now) found.now.file number }
{
    let Ok(all) = type_names(alloc, found.tree) else {
        text.lose();
        return;
    };
    let mut before = " (";
    for name in all.as_slice() {
        text.push_str(before);
        push_name(&name.name, text);
        push_meaning(
            names.resolve(found.file, number, name.name.0.as_slice()),
            text,
        );
        before = ", ";
    }
    if all.len() > 0 {
        text.push_str(")");
    }
}

fn push_meaning(meaning: Option<Resolved>, text: &mut GrowingText) {
    match meaning {
        Some(Resolved::Builtin(word)) => write!(text, "={word:?}"),
        Some(Resolved::ListWord) => text.push_str("=List"),
        Some(Resolved::LeftOut) => text.push_str("=left out"),
        Some(Resolved::Declared(number)) => write!(text, "={number}"),
        None => text.push_str("=nothing"),
    }
}
