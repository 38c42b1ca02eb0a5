//! Symbols of one byte and of two.
ghost use Rattle.std.specs.Prelude.{◌≡◌, ◌<◌, length};
ghost use Rattle.aidl_syntax.specs.Tables as tables;
ghost use Rattle.aidl_lexer.specs.steps.Reading as read;

use crate::fault::FaultKind;
use crate::fronts::Front;
use aidl_syntax::{Symbol, TokenKind};

// The symbol at the front.
#[tactic(auto, unfolding(crate::specs::steps::Reading::symbol_at))]
pub fn symbol_at(bytes: &[u8]) -> Front
    requires { 0 < length bytes.now }
    ensures { result ≡ read.symbol_at bytes.now }
{
    match bytes {
        [a, b, ..] => by_double(double(*a, *b), *a),
        [a] => by_single(single(*a)),
        [] => unreachable!(),
    }
}

fn by_double(symbol: Option<Symbol>, a: u8) -> Front
    ensures { result ≡ read.by_double symbol a }
{
    match symbol {
        Some(symbol) => Front::Token(TokenKind::Mark(symbol), 2),
        None => by_single(single(a)),
    }
}

fn by_single(symbol: Option<Symbol>) -> Front
    ensures { result ≡ read.by_single symbol }
{
    match symbol {
        Some(symbol) => Front::Token(TokenKind::Mark(symbol), 1),
        None => Front::Fault(FaultKind::BadByte),
    }
}

#[tactic(auto, unfolding(aidl_syntax::specs::Tables::single))]
fn single(a: u8) -> Option<Symbol>
    ensures { result ≡ tables.single a }
{
    match a {
        b'{' => Some(Symbol::OpenBrace),
        b'}' => Some(Symbol::CloseBrace),
        b'(' => Some(Symbol::OpenParen),
        b')' => Some(Symbol::CloseParen),
        b'[' => Some(Symbol::OpenBracket),
        b']' => Some(Symbol::CloseBracket),
        b'<' => Some(Symbol::Less),
        b'>' => Some(Symbol::Greater),
        b',' => Some(Symbol::Comma),
        b';' => Some(Symbol::Semicolon),
        b'=' => Some(Symbol::Equal),
        b'.' => Some(Symbol::Dot),
        b'@' => Some(Symbol::At),
        b'+' => Some(Symbol::Plus),
        b'-' => Some(Symbol::Minus),
        b'*' => Some(Symbol::Star),
        b'/' => Some(Symbol::Slash),
        b'%' => Some(Symbol::Percent),
        b'&' => Some(Symbol::And),
        b'|' => Some(Symbol::Or),
        b'^' => Some(Symbol::Caret),
        b'~' => Some(Symbol::Tilde),
        b'!' => Some(Symbol::Bang),
        _ => None,
    }
}

#[tactic(auto, unfolding(aidl_syntax::specs::Tables::double))]
fn double(a: u8, b: u8) -> Option<Symbol>
    ensures { result ≡ tables.double a b }
{
    match (a, b) {
        (b'<', b'<') => Some(Symbol::ShiftLeft),
        (b'>', b'>') => Some(Symbol::ShiftRight),
        (b'<', b'=') => Some(Symbol::LessEqual),
        (b'>', b'=') => Some(Symbol::GreaterEqual),
        (b'=', b'=') => Some(Symbol::EqualEqual),
        (b'!', b'=') => Some(Symbol::NotEqual),
        (b'&', b'&') => Some(Symbol::AndAnd),
        (b'|', b'|') => Some(Symbol::OrOr),
        _ => None,
    }
}
