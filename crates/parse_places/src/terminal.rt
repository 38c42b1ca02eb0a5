//! The terminals of the productions, and which of them a token is.
ghost use Rattle.std.specs.Prelude.{◌≡◌};
ghost use Rattle.parse_places.specs.steps.Terminals as terminals;

use aidl_syntax::{Reserved, Symbol, TokenKind};

// The terminals of the productions: tokens that no production tells apart are one terminal.
#[derive(Clone, Copy, PartialEq)]
pub enum Terminal {
    Name,
    Number,
    // a character, a string, `true` or `false`
    Literal,
    Package,
    Import,
    Interface,
    Parcelable,
    Union,
    Enum,
    Const,
    Oneway,
    // `in`, `out` or `inout`
    Way,
    Void,
    OpenBrace,
    CloseBrace,
    OpenParen,
    CloseParen,
    OpenBracket,
    CloseBracket,
    Less,
    Greater,
    Comma,
    Semicolon,
    Equal,
    Dot,
    At,
    // `~` or `!`, which stand before an operand
    Sign,
    // `+` or `-`, which stand before an operand or between two
    PlusOrMinus,
    // another operator between two operands
    Operator,
}

// The terminal that a token is.
pub fn terminal_of(kind: &TokenKind) -> Terminal
    ensures { result ≡ terminals.terminal_of kind.now }
{
    match kind {
        TokenKind::Name(_) => Terminal::Name,
        TokenKind::Word(word) => word_terminal(*word),
        TokenKind::Number { .. } => Terminal::Number,
        TokenKind::Character(_) => Terminal::Literal,
        TokenKind::Str(_) => Terminal::Literal,
        TokenKind::Mark(symbol) => symbol_terminal(*symbol),
    }
}

fn word_terminal(word: Reserved) -> Terminal
    ensures { result ≡ terminals.word_terminal word }
{
    match word {
        Reserved::Package => Terminal::Package,
        Reserved::Import => Terminal::Import,
        Reserved::Interface => Terminal::Interface,
        Reserved::Parcelable => Terminal::Parcelable,
        Reserved::Union => Terminal::Union,
        Reserved::Enum => Terminal::Enum,
        Reserved::Const => Terminal::Const,
        Reserved::Oneway => Terminal::Oneway,
        Reserved::In | Reserved::Out | Reserved::InOut => Terminal::Way,
        Reserved::True | Reserved::False => Terminal::Literal,
        Reserved::Void => Terminal::Void,
    }
}

fn symbol_terminal(symbol: Symbol) -> Terminal
    ensures { result ≡ terminals.symbol_terminal symbol }
{
    match symbol {
        Symbol::OpenBrace => Terminal::OpenBrace,
        Symbol::CloseBrace => Terminal::CloseBrace,
        Symbol::OpenParen => Terminal::OpenParen,
        Symbol::CloseParen => Terminal::CloseParen,
        Symbol::OpenBracket => Terminal::OpenBracket,
        Symbol::CloseBracket => Terminal::CloseBracket,
        Symbol::Less => Terminal::Less,
        Symbol::Greater => Terminal::Greater,
        Symbol::Comma => Terminal::Comma,
        Symbol::Semicolon => Terminal::Semicolon,
        Symbol::Equal => Terminal::Equal,
        Symbol::Dot => Terminal::Dot,
        Symbol::At => Terminal::At,
        Symbol::Plus | Symbol::Minus => Terminal::PlusOrMinus,
        Symbol::Tilde | Symbol::Bang => Terminal::Sign,
        _ => Terminal::Operator,
    }
}
