//! The ids of methods: the number written or the position, and which numbers are ids.
ghost use Rattle.std.specs.Prelude.{◌≡◌};
ghost use Rattle.aidl_syntax.specs.Trees.{method_of};
ghost use Rattle.type_uses.specs.Ids as meant;

use aidl_syntax::{MethodTree, Token, TokenKind};

/// The id of the method at a 0-based position among those of its interface: the number written, or else the position.
pub fn id_of(position: u64, method: &MethodTree) -> u64
    ensures { result ≡ meant.id_of position (method_of method.now) }
{
    match &method.id {
        None => position,
        Some(token) => number_of(token),
    }
}

/// The value of a number, whatever its spelling.
pub fn number_of(token: &Token) -> u64
    ensures { result ≡ meant.number_of token.now }
{
    match &token.kind {
        TokenKind::Number { bits, .. } => *bits,
        _ => 0,
    }
}

/// Whether it is a decimal without suffix from 0 to 16777114.
pub fn is_id(token: &Token) -> bool
    ensures { result ≡ meant.is_id token.now }
{
    match &token.kind {
        TokenKind::Number {
            bits,
            hexadecimal,
            long,
        } => !*hexadecimal && !*long && *bits <= 16_777_114,
        _ => false,
    }
}
