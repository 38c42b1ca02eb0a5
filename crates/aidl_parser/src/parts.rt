//! Parsing one symbol or one reserved word.
ghost use Rattle.std.specs.Prelude.{◌≡◌, length, IfOk, ◌<◌};
ghost use Rattle.aidl_parser.specs.steps.Parts as read;
ghost use Rattle.expr_parser.specs.Gives.{Gives};

use aidl_syntax::{Reserved, Symbol, Token, TokenKind};
use expr_parser::{ParseFault, mark_of};

/// Whether the symbol stands first.
#[tactic(auto, unfolding(crate::specs::steps::Parts::same_symbol))]
pub fn begins(s: Symbol, tokens: &[Token]) -> bool
    ensures { result ≡ read.begins s tokens.now }
{
    match tokens {
        [t, ..] => match mark_of(&t.kind) {
            Some(m) => m == s,
            None => false,
        },
        [] => false,
    }
}

/// Whether the reserved word stands first.
#[tactic(auto, unfolding(crate::specs::steps::Parts::same_word))]
pub fn begins_word(r: Reserved, tokens: &[Token]) -> bool
    ensures { result ≡ read.begins_word r tokens.now }
{
    match tokens {
        [t, ..] => match word_of(&t.kind) {
            Some(w) => w == r,
            None => false,
        },
        [] => false,
    }
}

/// What follows the symbol; `Syntax` where it doesn't stand first.
pub fn quoted<'a>(s: Symbol, tokens: &'a [Token]) -> Result<((), &'a [Token]), ParseFault>
    ensures gives { Gives (λ x. (x.0, x.1.now)) result (read.quoted s tokens.entry.now) }
    ensures left { IfOk result (λ x. length x.1.now < length tokens.entry.now) }
{
    if begins(s, tokens) {
        Ok(((), &tokens[1..]))
    } else {
        Err(ParseFault::Syntax)
    }
}

/// What follows the reserved word; `Syntax` where it doesn't stand first.
pub fn worded<'a>(r: Reserved, tokens: &'a [Token]) -> Result<((), &'a [Token]), ParseFault>
    ensures gives { Gives (λ x. (x.0, x.1.now)) result (read.worded r tokens.entry.now) }
    ensures left { IfOk result (λ x. length x.1.now < length tokens.entry.now) }
{
    if begins_word(r, tokens) {
        Ok(((), &tokens[1..]))
    } else {
        Err(ParseFault::Syntax)
    }
}

/// The reserved word that a token is.
pub fn word_of(kind: &TokenKind) -> Option<Reserved>
    ensures { result ≡ read.word_of kind.now }
{
    match kind {
        TokenKind::Word(r) => Some(*r),
        _ => None,
    }
}
