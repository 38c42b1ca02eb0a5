//! Tokens: their kinds, the symbols, and their places.

use aidl_base::{Reserved, Text};

/// The symbols, of one byte and of two (AOSP, "AIDL language": the punctuation and the operators of constants).
#[derive(Clone, Copy, Debug, PartialEq, Eq)]
pub enum Symbol {
    /// `{`
    OpenBrace,
    /// `}`
    CloseBrace,
    /// `(`
    OpenParen,
    /// `)`
    CloseParen,
    /// `[`
    OpenBracket,
    /// `]`
    CloseBracket,
    /// `<`
    Less,
    /// `>`
    Greater,
    /// `,`
    Comma,
    /// `;`
    Semicolon,
    /// `=`
    Equal,
    /// `.`
    Dot,
    /// `@`
    At,
    /// `+`
    Plus,
    /// `-`
    Minus,
    /// `*`
    Star,
    /// `/`
    Slash,
    /// `%`
    Percent,
    /// `&`
    And,
    /// `|`
    Or,
    /// `^`
    Caret,
    /// `~`
    Tilde,
    /// `!`
    Bang,
    /// `<<`
    ShiftLeft,
    /// `>>`
    ShiftRight,
    /// `<=`
    LessEqual,
    /// `>=`
    GreaterEqual,
    /// `==`
    EqualEqual,
    /// `!=`
    NotEqual,
    /// `&&`
    AndAnd,
    /// `||`
    OrOr,
}

/// What a token is.
#[derive(Drop)]
pub enum TokenKind {
    /// an identifier
    Name(Text),
    /// a reserved word
    Word(Reserved),
    /// a number: its value, whether it is hexadecimal, and whether the suffix `L` or `l` stands
    Number {
        bits: u64,
        hexadecimal: bool,
        long: bool,
    },
    /// a character between apostrophes, by its ASCII code
    Character(u32),
    /// a string, without its quotes
    Str(Text),
    /// a symbol
    Mark(Symbol),
}

/// A token, and the place of its first byte, in bytes from the start of the file.
#[derive(Drop)]
pub struct Token {
    pub kind: TokenKind,
    pub offset: u32,
}
