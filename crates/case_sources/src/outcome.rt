//! What can be asked of a source text, and the answer as text.

use crate::evaluation::constant_text;
use crate::outline::push_file;
use crate::place::shown_place;
use crate::tokens::shown_tokens;
use aidl_base::{LimitName, OutOfMemory};
use aidl_lexer::{LexFault, lex};
use aidl_parser::parse;
use aidl_syntax::{FileTree, Token};
use expr_parser::ParseFault;
use growing::GrowingText;
use std::alloc::Global;

/// What is asked of a source text.
#[derive(Clone, Copy)]
pub enum Kind {
    /// its tokens
    Tokens,
    /// how many tokens it has
    Count,
    /// the place of its syntax fault
    Place,
    /// its tree
    Tree,
    /// whether it has a tree
    Acceptance,
    /// the value of its first constant
    Value,
}

/// What comes of a source text: what was asked of it, or the fault.
pub fn outcome_of(alloc: Global, kind: Kind, bytes: &[u8]) -> Result<String, OutOfMemory> {
    if bytes.len() > LimitName::FileBytes.number() as usize {
        return limit(alloc, LimitName::FileBytes);
    }
    match lex(alloc, bytes) {
        Ok(tokens) => of_tokens(alloc, kind, tokens.as_slice()),
        Err(fault) => lex_fault(alloc, fault),
    }
}

fn of_tokens(alloc: Global, kind: Kind, tokens: &[Token]) -> Result<String, OutOfMemory> {
    match kind {
        Kind::Tokens => shown_tokens(alloc, tokens),
        Kind::Count => Ok(format!(in alloc; "{} tokens", tokens.len())?),
        Kind::Place => shown_place(alloc, tokens),
        _ => of_parsed(alloc, kind, parse(alloc, tokens)),
    }
}

fn of_parsed(
    alloc: Global,
    kind: Kind,
    parsed: Result<FileTree, ParseFault>,
) -> Result<String, OutOfMemory> {
    match parsed {
        Ok(tree) => of_tree(alloc, kind, &tree),
        Err(ParseFault::Limit(passed)) => limit(alloc, passed.which),
        Err(ParseFault::Syntax) => Ok(String::from_str(alloc, "fault 2 Syntax")?),
        Err(ParseFault::OutOfMemory) => Err(OutOfMemory),
    }
}

fn of_tree(alloc: Global, kind: Kind, tree: &FileTree) -> Result<String, OutOfMemory> {
    match kind {
        Kind::Value => constant_text(alloc, tree),
        Kind::Acceptance => Ok(String::from_str(alloc, "a tree")?),
        _ => {
            let mut text = GrowingText::new(alloc);
            push_file(tree, &mut text);
            text.into_string()
        }
    }
}

/// A limit that is passed, as text.
pub fn limit(alloc: Global, which: LimitName) -> Result<String, OutOfMemory> {
    Ok(format!(in alloc; "limit {} {}", which.name(), which.number())?)
}

fn lex_fault(alloc: Global, fault: LexFault) -> Result<String, OutOfMemory> {
    match (fault.number(), fault.name(), fault.offset()) {
        (Some(number), Some(name), Some(offset)) => {
            Ok(format!(in alloc; "fault {number} {name} at {offset}")?)
        }
        _ => Err(OutOfMemory),
    }
}
