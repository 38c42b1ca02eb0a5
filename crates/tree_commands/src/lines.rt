//! The printed lines of faults in files: files without tokens, and broken check rules.
ghost use Rattle.std.specs.Prelude.{◌≡◌, true, string_bytes};
ghost use Rattle.std.specs.List.{flat_map};
ghost use Rattle.growing.specs.Grows.{Grows};
ghost use Rattle.tree_commands.specs.Lines as meant;

use crate::rule_names::rule_name;
use aidl_base::{Breach, SourceFile};
use growing::GrowingText;
use std::alloc::Global;
use tree_files::LexBreach;

/// The lines of files without tokens, among the files of a tree with a root: `PATH:OFFSET: lex NUMBER NAME`.
pub fn lex_lines(alloc: Global, root: &str, files: &[SourceFile], rows: &[LexBreach]) -> GrowingText
    ensures { result.is_whole ≡ true → string_bytes result.text
        ≡ flat_map (meant.lex_line root.now files.now) rows.now }
{
    let mut text = GrowingText::new(alloc);
    for row in rows {
        push_lex(root, files, row, &mut text);
    }
    text
}

// Adds the line of a file without tokens.
fn push_lex(root: &str, files: &[SourceFile], row: &LexBreach, text: &mut GrowingText)
    ensures { Grows text.old text.new (meant.lex_line root.now files.now row.now) }
{
    if let Some(file) = files.get(row.file as usize) {
        let path = file.path.as_str();
        let fault = &row.fault;
        if let (Some(offset), Some(number), Some(name)) = (
            fault.offset(),
            fault.number(),
            fault.name(),
        ) {
            writeln!(text, "{root}/{path}:{offset}: lex {number} {name}");
        }
    }
}

/// The lines of broken check rules, among the files of a tree with a root: `PATH:OFFSET: E4 UnknownType`.
pub fn breach_lines(alloc: Global, root: &str, files: &[SourceFile], rows: &[Breach]) -> GrowingText
    ensures { result.is_whole ≡ true → string_bytes result.text
        ≡ flat_map (meant.breach_line root.now files.now) rows.now }
{
    let mut text = GrowingText::new(alloc);
    for row in rows {
        push_breach(root, files, *row, &mut text);
    }
    text
}

// Adds the line of a broken rule.
fn push_breach(root: &str, files: &[SourceFile], row: Breach, text: &mut GrowingText)
    ensures { Grows text.old text.new (meant.breach_line root.now files.now row) }
{
    if let Some(file) = files.get(row.file as usize) {
        let path = file.path.as_str();
        let Breach { offset, rule, .. } = row;
        let name = rule_name(rule);
        writeln!(text, "{root}/{path}:{offset}: E{rule} {name}");
    }
}
