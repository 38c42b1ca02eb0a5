//! Parsing annotations and their parameters.
ghost use Rattle.std.specs.Prelude.{◌≡◌, map, [], ◌∷◌, length, IfOk, ◌<◌, ◌≤◌};
ghost use Rattle.aidl_syntax.specs.declared.token.Symbol.TheVariants as mark;
ghost use Rattle.aidl_syntax.specs.Trees.{Param, Annot, param_of, annot_of, map_option};
ghost use Rattle.aidl_syntax.specs.Productions as form;
ghost use Rattle.aidl_parser.specs.steps.Parts as part;
ghost use Rattle.aidl_parser.specs.steps.Types.{ident as ident_at};
ghost use Rattle.aidl_parser.specs.steps.Inits as read;
ghost use Rattle.expr_parser.specs.Gives.{Gives};

use crate::lists::{Part, Repeat, in_parens, many};
use crate::parts::{begins, quoted};
use crate::types::ident;
use aidl_base::Row;
use aidl_syntax::{AnnotTree, InitTree, NameTree, ParamTree, Symbol, Token};
use expr_parser::{ParseFault, first, is_name};
use std::alloc::Global;

/// `{"@" ident ["(" [param {"," param}] ")"]}`: the annotations that stand first, and what follows them. `Syntax` where one
/// begins and is none.
#[tactic(auto, unfolding(crate::specs::steps::Inits::annots_at), using(crate::proofs::lemmas::Rounds::with_none))]
pub fn annots<'a>(
    alloc: Global,
    fuel: usize,
    tokens: &'a [Token],
) -> Result<(Row<AnnotTree>, &'a [Token]), ParseFault>
    requires { length tokens.now < fuel }
    ensures gives { Gives (λ x. (map annot_of x.0, x.1.now)) result
        (read.annots_at fuel tokens.entry.now) }
    ensures left { IfOk result (λ x. length x.1.now ≤ length tokens.entry.now) }
{
    many(alloc, fuel, Repeat::Annotations, Row::new(alloc), tokens)
}

// "@" ident ["(" [param {"," param}] ")"]
impl Part for AnnotTree {
    ghost Seen = { Annot };

    ghost seen = { annot_of };

    ghost read = { read.annot_at };

    #[tactic(auto, unfolding(crate::specs::steps::Inits::annot_at))]
    fn part<'a>(
        alloc: Global,
        fuel: usize,
        tokens: &'a [Token],
    ) -> Result<(Self, &'a [Token]), ParseFault> {
        let (_at, rest) = quoted(Symbol::At, tokens)?;
        let (name, rest) = ident(alloc, rest)?;
        let (params, rest) = maybe_params(alloc, fuel, rest)?;
        Ok((
            AnnotTree {
                offset: first(tokens),
                name,
                params: listed(alloc, params),
            },
            rest,
        ))
    }
}

// No parentheses are as empty ones.
fn listed(alloc: Global, params: Option<Row<ParamTree>>) -> Row<ParamTree>
    ensures { map param_of result ≡ form.listed (map_option (map param_of) params) }
{
    match params {
        Some(params) => params,
        None => Row::new(alloc),
    }
}

// ["(" [param {"," param}] ")"]
#[tactic(auto, unfolding(crate::specs::steps::Inits::params_at))]
fn maybe_params<'a>(
    alloc: Global,
    fuel: usize,
    tokens: &'a [Token],
) -> Result<(Option<Row<ParamTree>>, &'a [Token]), ParseFault>
    requires { length tokens.now < fuel }
    ensures gives { Gives (λ x. (map_option (map param_of) x.0, x.1.now)) result
        (part.maybe (part.begins mark.OpenParen) (read.params_at fuel) tokens.entry.now) }
    ensures left { IfOk result (λ x. length x.1.now ≤ length tokens.entry.now) }
{
    if begins(Symbol::OpenParen, tokens) {
        let (params, rest) = in_parens(alloc, fuel, tokens)?;
        Ok((Some(params), rest))
    } else {
        Ok((None, tokens))
    }
}

// [ident "="] init
impl Part for ParamTree {
    ghost Seen = { Param };

    ghost seen = { param_of };

    ghost read = { read.param_at };

    #[tactic(auto, unfolding(crate::specs::steps::Inits::param_at))]
    fn part<'a>(
        alloc: Global,
        fuel: usize,
        tokens: &'a [Token],
    ) -> Result<(Self, &'a [Token]), ParseFault> {
        let (name, rest) = maybe_named(alloc, tokens)?;
        let (value, rest) = InitTree::part(alloc, fuel, rest)?;
        Ok((
            ParamTree {
                offset: first(tokens),
                name,
                value,
            },
            rest,
        ))
    }
}

// [ident "="]
fn maybe_named<'a>(
    alloc: Global,
    tokens: &'a [Token],
) -> Result<(Option<NameTree>, &'a [Token]), ParseFault>
    ensures gives { Gives (λ x. (x.0, x.1.now)) result
        (part.maybe read.begins_named (part.upto ident_at mark.Equal) tokens.entry.now) }
    ensures left { IfOk result (λ x. length x.1.now ≤ length tokens.entry.now) }
{
    if begins_named(tokens) {
        let (name, rest) = ident(alloc, tokens)?;
        let (_sign, rest) = quoted(Symbol::Equal, rest)?;
        Ok((Some(name), rest))
    } else {
        Ok((None, tokens))
    }
}

fn begins_named(tokens: &[Token]) -> bool
    ensures { result ≡ read.begins_named tokens.now }
{
    match tokens {
        [t, rest @ ..] => is_name(&t.kind) && begins(Symbol::Equal, rest),
        [] => false,
    }
}
