//! Single tokens: symbols, identifiers and the first token of a list.
ghost use Rattle.std.specs.Prelude.{◌≡◌, ◌∷◌, [], MatchOption, is_some};
ghost use Rattle.aidl_syntax.specs.Parts as part;
ghost use Rattle.expr_parser.specs.Reading as read;
ghost use Rattle.expr_parser.specs.Gives.{Gives};

use crate::fault::ParseFault;
use aidl_base::Ident;
use aidl_syntax::{Symbol, Token, TokenKind};
use std::alloc::Global;

/// The symbol that a token is.
pub fn mark_of(kind: &TokenKind) -> Option<Symbol>
    ensures { result ≡ read.mark_of kind.now }
{
    match kind {
        TokenKind::Mark(s) => Some(*s),
        _ => None,
    }
}

/// The identifier that a token is, as a text of its own; `Syntax` where it is another token.
pub fn name_of(alloc: Global, kind: &TokenKind) -> Result<Ident, ParseFault>
    ensures { Gives (λ i. i) result (read.name_of kind.now) }
{
    match kind {
        TokenKind::Name(x) => Ok(Ident(x.try_clone(alloc)?)),
        _ => Err(ParseFault::Syntax),
    }
}

/// The first token, and those after it.
pub fn next<'a>(tokens: &'a [Token]) -> Option<(&'a Token, &'a [Token])>
    ensures { MatchOption result (tokens.now ≡ []) (λ x. tokens.now ≡ x.0.now ∷ x.1.now) }
{
    match tokens {
        [t, rest @ ..] => Some((t, rest)),
        [] => None,
    }
}

/// The offset of the first token in its file, in bytes; 0 where there is none.
pub fn first(tokens: &[Token]) -> u32
    ensures { result ≡ part.first tokens.now }
{
    match tokens {
        [t, ..] => t.offset,
        [] => 0,
    }
}

/// Whether a token is an identifier.
pub fn is_name(kind: &TokenKind) -> bool
    ensures { result ≡ is_some (read.name_of kind.now) }
{
    match kind {
        TokenKind::Name(_) => true,
        _ => false,
    }
}
