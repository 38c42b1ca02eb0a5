//! The tokens of a source text as text.

use crate::names::comma;
use aidl_base::OutOfMemory;
use aidl_syntax::{Token, TokenKind};
use growing::GrowingText;
use std::alloc::Global;

/// Tokens as text: the offset and the kind of each.
pub fn shown_tokens(alloc: Global, tokens: &[Token]) -> Result<String, OutOfMemory> {
    let mut text = GrowingText::new(alloc);
    for token in tokens {
        comma(&mut text);
        push_token(token, &mut text);
    }
    text.into_string()
}

fn push_token(token: &Token, text: &mut GrowingText) {
    write!(text, "{} ", token.offset);
    match &token.kind {
        TokenKind::Name(name) => write!(text, "name {}", name.as_str()),
        TokenKind::Word(word) => write!(text, "{word:?}"),
        TokenKind::Number {
            bits,
            hexadecimal,
            long,
        } => {
            let base = if *hexadecimal { " hexadecimal" } else { "" };
            let width = if *long { " long" } else { "" };
            write!(text, "number {bits}{base}{width}")
        }
        TokenKind::Character(code) => write!(text, "character {code}"),
        TokenKind::Str(string) => write!(text, "string \"{}\"", string.as_str()),
        TokenKind::Mark(symbol) => write!(text, "{symbol:?}"),
    }
}
