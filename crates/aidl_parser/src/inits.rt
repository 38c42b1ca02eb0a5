//! Parsing initializers: an expression, or expressions between braces.
ghost use Rattle.std.specs.Prelude.{◌≡◌, map, [], ◌∷◌, length, IfOk, ◌<◌};
ghost use Rattle.aidl_syntax.specs.declared.token.Symbol.TheVariants as mark;
ghost use Rattle.aidl_syntax.specs.Trees.{Expr, Init, expr_of, init_of};
ghost use Rattle.aidl_parser.specs.steps.Parts as part;
ghost use Rattle.aidl_parser.specs.steps.Inits as read;
ghost use Rattle.expr_parser.specs.Gives.{Gives};

use crate::lists::{Part, maybe_trailing};
use crate::parts::{begins, quoted};
use aidl_base::Row;
use aidl_syntax::{ExprTree, InitTree, Symbol, Token};
use expr_parser::{Level, ParseFault, expr, first};
use std::alloc::Global;

// expr | "{" [expr {"," expr} [","]] "}"
impl Part for InitTree {
    ghost Seen = { Init };

    ghost seen = { init_of };

    ghost read = { read.init_at };

    #[tactic(auto, unfolding(crate::specs::steps::Inits::init_at))]
    fn part<'a>(
        alloc: Global,
        fuel: usize,
        tokens: &'a [Token],
    ) -> Result<(Self, &'a [Token]), ParseFault> {
        if begins(Symbol::OpenBrace, tokens) {
            braces(alloc, fuel, tokens)
        } else {
            let (value, rest) = expr(alloc, fuel, Level::Or, tokens)?;
            Ok((InitTree::Single(value), rest))
        }
    }
}

#[tactic(auto, unfolding(crate::specs::steps::Inits::braces_at))]
fn braces<'a>(
    alloc: Global,
    fuel: usize,
    tokens: &'a [Token],
) -> Result<(InitTree, &'a [Token]), ParseFault>
    requires { length tokens.now < fuel }
    ensures gives { Gives (λ x. (init_of x.0, x.1.now)) result
        (read.braces_at fuel tokens.entry.now) }
    ensures left { IfOk result (λ x. length x.1.now < length tokens.entry.now) }
{
    let (_begin, rest) = quoted(Symbol::OpenBrace, tokens)?;
    let (items, rest) = maybe_trailing(alloc, fuel, rest)?;
    let (_end, rest) = quoted(Symbol::CloseBrace, rest)?;
    Ok((
        InitTree::Braces {
            offset: first(tokens),
            items,
        },
        rest,
    ))
}

impl Part for ExprTree {
    ghost Seen = { Expr };

    ghost seen = { expr_of };

    ghost read = { read.expr_at };

    fn part<'a>(
        alloc: Global,
        fuel: usize,
        tokens: &'a [Token],
    ) -> Result<(Self, &'a [Token]), ParseFault> {
        expr(alloc, fuel, Level::Or, tokens)
    }
}
