//! Dotted names at the front of tokens.
ghost use Rattle.std.specs.Prelude.{◌≡◌, [], ◌∷◌, true, length, IfOk, ◌<◌, IfSome};
ghost use Rattle.expr_parser.specs.Reading as read;
ghost use Rattle.expr_parser.specs.Gives.{Gives};

use crate::fault::ParseFault;
use crate::tokens::{first, mark_of, name_of, next};
use aidl_base::{DottedName, Ident, Parts, Row};
use aidl_syntax::{DottedTree, Symbol, Token};
use std::alloc::Global;

/// Identifiers joined by dots, and what follows them; `Syntax` where no identifier stands first, or none behind a dot.
#[tactic(auto, unfolding(crate::specs::Reading::dotted))]
pub fn dotted<'a>(
    alloc: Global,
    tokens: &'a [Token],
) -> Result<(DottedTree, &'a [Token]), ParseFault>
    ensures gives { Gives (λ x. (x.0, x.1.now)) result (read.dotted tokens.now) }
    ensures left { IfOk result (λ x. length x.1.now < length tokens.entry.now) }
{
    let (parts, rest) = parts(alloc, tokens)?;
    Ok((
        DottedTree {
            offset: first(tokens),
            name: DottedName(parts),
        },
        rest,
    ))
}

// Most names have one part, which needs no list.
fn parts<'a>(alloc: Global, tokens: &'a [Token]) -> Result<(Parts, &'a [Token]), ParseFault>
    ensures gives { Gives (λ x. (x.0, x.1.now)) result (read.names true tokens.now) }
    ensures left { IfOk result (λ x. length x.1.now < length tokens.entry.now) }
{
    match next(tokens) {
        Some((t, after)) => {
            let part = name_of(alloc, &t.kind)?;
            match after_dot(after) {
                Some(rest) => parts_behind(alloc, part, rest),
                None => Ok((Parts::one(part), after)),
            }
        }
        None => Err(ParseFault::Syntax),
    }
}

// A part, and those behind its dot.
fn parts_behind<'a>(
    alloc: Global,
    part: Ident,
    tokens: &'a [Token],
) -> Result<(Parts, &'a [Token]), ParseFault>
    ensures gives { Gives (λ x. (x.0, x.1.now)) result
        (read.with_names (part ∷ []) (read.names true tokens.now)) }
    ensures left { IfOk result (λ x. length x.1.now < length tokens.entry.now) }
{
    // Few names have more than four parts.
    let mut items = Vec::with_capacity(alloc, 4)?;
    items.push(part)?;
    let mut rest = tokens;
    while let Some((t, after)) = next(rest) {
        items.push(name_of(alloc, &t.kind)?)?;
        match after_dot(after) {
            Some(next) => {
                rest = next;
            }
            None => {
                return Ok((Parts::from_row(Row::from_vec(items)), after));
            }
        }
    }
    Err(ParseFault::Syntax)
}

// The tokens after a dot, where one stands first.
fn after_dot<'a>(tokens: &'a [Token]) -> Option<&'a [Token]>
    ensures value { read.option_now result ≡ read.after_dot tokens.now }
    ensures left { IfSome result (λ r. length r.now < length tokens.entry.now) }
{
    match tokens {
        [t, rest @ ..] => match mark_of(&t.kind) {
            Some(Symbol::Dot) => Some(rest),
            _ => None,
        },
        [] => None,
    }
}
