//! The lines of files without a tree, each with the offset of its syntax fault.
ghost use Rattle.std.specs.Prelude.{◌≡◌, ◌≤◌, true, length, string_bytes};
ghost use Rattle.std.specs.List.{All};
ghost use Rattle.aidl_syntax.specs.Tokens.{Tokens};
ghost use Rattle.tree_commands.specs.Faults.{AreSyntaxLines, IsSyntaxLine};
ghost use Rattle.tree_commands.specs.Lines as meant;
ghost use Rattle.tree_commands.specs.steps.Adding.{Adds, AddsLine};

use aidl_base::SourceFile;
use aidl_lexer::lex;
use aidl_syntax::Token;
use growing::GrowingText;
use parse_places::fault_place;
use std::alloc::Global;

/// The lines of the files with these 0-based numbers, for whose tokens no tree stands, among the files of a tree with a root:
/// `PATH:OFFSET: syntax`.
pub fn syntax_lines(alloc: Global, root: &str, files: &[SourceFile], numbers: &[u32]) -> GrowingText
    requires { All (λ f. length f.bytes ≤ 262144) files.now }
    ensures { result.is_whole ≡ true
        → AreSyntaxLines root.now files.now numbers.now (string_bytes result.text) }
{
    let mut text = GrowingText::new(alloc);
    for number in numbers {
        push_line(alloc, root, files, *number, &mut text);
    }
    text
}

// Adds the line of the file with a number, which is of at most 262,144 bytes and has tokens: only memory may be wanting where they
// are taken again.
fn push_line(alloc: Global, root: &str, files: &[SourceFile], number: u32, text: &mut GrowingText)
    requires { All (λ f. length f.bytes ≤ 262144) files.now }
    ensures { AddsLine root.now files.now number text.old text.new }
{
    if let Some(file) = files.get(number as usize) {
        match lex(alloc, file.bytes.as_slice()) {
            Ok(tokens) => push_place(alloc, root, file, tokens.as_slice(), text),
            Err(_) => text.lose(),
        }
    }
}

// Adds the line of a file with these tokens.
fn push_place(
    alloc: Global,
    root: &str,
    file: &SourceFile,
    tokens: &[Token],
    text: &mut GrowingText,
)
    requires { Tokens file.now.bytes tokens.now }
    ensures { Adds (IsSyntaxLine root.now file.now) text.old text.new }
{
    match fault_place(alloc, tokens) {
        Ok(Some(place)) => {
            let path = file.path.as_str();
            let offset = offset_at(file, tokens, place);
            writeln!(text, "{root}/{path}:{offset}: syntax");
        }
        Ok(None) => {}
        Err(_) => text.lose(),
    }
}

// The offset of the token with a number, and the file's length behind the last.
fn offset_at(file: &SourceFile, tokens: &[Token], place: usize) -> usize
    ensures { result ≡ meant.offset_at file.now tokens.now place }
{
    match tokens.get(place) {
        Some(token) => token.offset as usize,
        None => file.bytes.len(),
    }
}
