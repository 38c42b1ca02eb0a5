//! Parsing the arguments of methods with their directions, and the token of a number.
ghost use Rattle.std.specs.Prelude.{◌≡◌, map, [], ◌++◌, length, IfOk, ◌<◌, ◌≤◌};
ghost use Rattle.aidl_base.specs.declared.reserved.Reserved.TheVariants as word;
ghost use Rattle.aidl_syntax.specs.Trees.{Arg, arg_of};
ghost use Rattle.aidl_parser.specs.steps.Items as read;
ghost use Rattle.aidl_syntax.specs.declared.token.Token.{Token as SeenToken};
ghost use Rattle.expr_parser.specs.Gives.{Gives};

use crate::annotations::annots;
use crate::lists::{Part, Repeat, many};
use crate::types::{ident, type_of};
use aidl_syntax::{ArgTree, Reserved, Token, TokenKind, WayTree};
use expr_parser::{ParseFault, clone_token, first};
use std::alloc::Global;

// annots ["in" | "out" | "inout"] annots type ident
impl Part for ArgTree {
    ghost Seen = { Arg };

    ghost seen = { arg_of };

    ghost read = { read.arg_at };

    #[tactic(auto, unfolding(crate::specs::steps::Items::arg_at, crate::specs::steps::Inits::annots_at))]
    fn part<'a>(
        alloc: Global,
        fuel: usize,
        tokens: &'a [Token],
    ) -> Result<(Self, &'a [Token]), ParseFault> {
        let (before, rest) = annots(alloc, fuel, tokens)?;
        let (way, rest) = way(rest)?;
        let (annots, rest) = many(alloc, fuel, Repeat::Annotations, before, rest)?;
        let (ty, rest) = type_of(alloc, rest)?;
        let (name, rest) = ident(alloc, rest)?;
        Ok((
            ArgTree {
                offset: first(tokens),
                annots,
                way,
                ty,
                name,
            },
            rest,
        ))
    }
}

// ["in" | "out" | "inout"]
fn way<'a>(tokens: &'a [Token]) -> Result<(Option<WayTree>, &'a [Token]), ParseFault>
    ensures gives { Gives (λ x. (x.0, x.1.now)) result (read.way_at tokens.entry.now) }
    ensures left { IfOk result (λ x. length x.1.now ≤ length tokens.entry.now) }
{
    match tokens {
        [t, rest @ ..] => match way_of(&t.kind) {
            Some(way) => Ok((Some(way), rest)),
            None => Ok((None, tokens)),
        },
        [] => Ok((None, tokens)),
    }
}

fn way_of(kind: &TokenKind) -> Option<WayTree>
    ensures { result ≡ read.way_of kind.now }
{
    match kind {
        TokenKind::Word(Reserved::In) => Some(WayTree::In),
        TokenKind::Word(Reserved::Out) => Some(WayTree::Out),
        TokenKind::Word(Reserved::InOut) => Some(WayTree::InOut),
        _ => None,
    }
}

// A number, as its token.
impl Part for Token {
    ghost Seen = { SeenToken };

    ghost seen = { λ t. t };

    ghost read = { λ _ ts. read.number_at ts };

    fn part<'a>(
        alloc: Global,
        _fuel: usize,
        tokens: &'a [Token],
    ) -> Result<(Self, &'a [Token]), ParseFault> {
        match tokens {
            [t, rest @ ..] => match &t.kind {
                TokenKind::Number { .. } => Ok((clone_token(alloc, t)?, rest)),
                _ => Err(ParseFault::Syntax),
            },
            [] => Err(ParseFault::Syntax),
        }
    }
}
