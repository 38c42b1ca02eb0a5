//! Expressions: literals, names, parentheses, signs and binary operators by their levels.
ghost use Rattle.std.specs.Prelude.{◌≡◌, IfErr, ◌+◌, ◌-◌, ◌≤◌, ◌<◌, IfOk, MatchOption, false, length};
ghost use Rattle.aidl_syntax.specs.Trees.{expr_of};
ghost use Rattle.aidl_syntax.specs.Trees.Expr.{unary as unary_tree, binary as binary_tree};
ghost use Rattle.aidl_syntax.specs.Trees as shown;
ghost use Rattle.aidl_syntax.specs.Productions as form;
ghost use Rattle.expr_parser.specs.Reading as read;
ghost use Rattle.expr_parser.specs.Levels.{rank};
ghost use Rattle.expr_parser.specs.Gives.{Gives};
ghost use Rattle.expr_parser.specs.declared.fault.ParseFault.TheVariants as fault;

use crate::fault::ParseFault;
use crate::levels::{Level, above, operator};
use crate::names::dotted;
use crate::tokens::{first, mark_of, next};
use aidl_syntax::{ExprKind, ExprTree, Reserved, Symbol, Token, TokenKind};
use std::alloc::Global;

/// The expression that stands first, with binary operators of this level or above, and what follows it; `Syntax` where
/// none stands there. `fuel` is more than the tokens, so that there are steps for all of them.
#[cycle(expr)]
#[tactic(auto, using(crate::proofs::lemmas::Looping::expr_step))]
pub fn expr<'a>(
    alloc: Global,
    fuel: usize,
    least: Level,
    tokens: &'a [Token],
) -> Result<(ExprTree, &'a [Token]), ParseFault>
    requires { length tokens.now < fuel }
    ensures gives { Gives (λ x. (expr_of x.0, x.1.now)) result
        (read.expr fuel (rank least) tokens.entry.now) }
    ensures left { IfOk result (λ x. length x.1.now < length tokens.entry.now) }
{
    let (first, rest) = operand(alloc, fuel - 1, tokens)?;
    climb(alloc, fuel - 1, least, first, rest)
}

#[cycle(expr)]
#[tactic(auto, unfolding(crate::specs::Reading::operand))]
fn operand<'a>(
    alloc: Global,
    fuel: usize,
    tokens: &'a [Token],
) -> Result<(ExprTree, &'a [Token]), ParseFault>
    requires { length tokens.now ≤ fuel }
    ensures gives { Gives (λ x. (expr_of x.0, x.1.now)) result
        (read.operand (λ k us. read.expr fuel k us) tokens.entry.now) }
    ensures left { IfOk result (λ x. length x.1.now < length tokens.entry.now) }
{
    match tokens {
        [t, rest @ ..] => match mark_of(&t.kind) {
            Some(s) => by_symbol(alloc, fuel, t.offset, s, rest),
            None => {
                if is_literal(&t.kind) {
                    Ok((
                        ExprTree {
                            offset: t.offset,
                            kind: ExprKind::Literal(clone_token(alloc, t)?),
                        },
                        rest,
                    ))
                } else {
                    by_name(alloc, tokens)
                }
            }
        },
        [] => Err(ParseFault::Syntax),
    }
}

#[cycle(expr)]
fn by_symbol<'a>(
    alloc: Global,
    fuel: usize,
    offset: u32,
    s: Symbol,
    rest: &'a [Token],
) -> Result<(ExprTree, &'a [Token]), ParseFault>
    requires { length rest.now < fuel }
    ensures gives { Gives (λ x. (expr_of x.0, x.1.now)) result
        (read.by_symbol (λ k us. read.expr fuel k us) offset s rest.entry.now) }
    ensures left { IfOk result (λ x. length x.1.now ≤ length rest.entry.now) }
{
    if is_open(s) {
        let (inner, rest) = expr(alloc, fuel, Level::Or, rest)?;
        closed(alloc, offset, inner, rest)
    } else if is_sign(s) {
        let (inner, rest) = expr(alloc, fuel, Level::Unary, rest)?;
        Ok((unary(alloc, offset, s, inner)?, rest))
    } else {
        Err(ParseFault::Syntax)
    }
}

// Binary operators of a level or above, with their right parts.
#[cycle(expr)]
fn climb<'a>(
    alloc: Global,
    fuel: usize,
    least: Level,
    first: ExprTree,
    tokens: &'a [Token],
) -> Result<(ExprTree, &'a [Token]), ParseFault>
    requires { length tokens.now < fuel }
    ensures gives { Gives (λ x. (expr_of x.0, x.1.now)) result (read.climb
        (λ k us. read.expr fuel k us) fuel (rank least) (expr_of first) tokens.entry.now) }
    ensures left { IfOk result (λ x. length x.1.now ≤ length tokens.entry.now) }
{
    let mut tree = first;
    let mut rest = tokens;
    let mut rounds = fuel;
    while let Some((t, after)) = next(rest) {
        let Some((sign, level)) = operator(least, &t.kind) else {
            return Ok((tree, rest));
        };
        rounds -= 1;
        let (right, next) = expr(alloc, fuel, above(level), after)?;
        tree = binary(alloc, sign, tree, right)?;
        rest = next;
    }
    Ok((tree, rest))
}

fn by_name<'a>(alloc: Global, tokens: &'a [Token]) -> Result<(ExprTree, &'a [Token]), ParseFault>
    ensures gives { Gives (λ x. (expr_of x.0, x.1.now)) result (read.by_name tokens.now) }
    ensures left { IfOk result (λ x. length x.1.now < length tokens.entry.now) }
{
    let (name, rest) = dotted(alloc, tokens)?;
    Ok((
        ExprTree {
            offset: first(tokens),
            kind: ExprKind::Name(name),
        },
        rest,
    ))
}

// An expression in parentheses, from its closing one on.
fn closed<'a>(
    alloc: Global,
    offset: u32,
    inner: ExprTree,
    rest: &'a [Token],
) -> Result<(ExprTree, &'a [Token]), ParseFault>
    ensures gives { Gives (λ x. (expr_of x.0, x.1.now)) result
        (read.closed offset (expr_of inner) rest.entry.now) }
    ensures left { IfOk result (λ x. length x.1.now ≤ length rest.entry.now) }
{
    match rest {
        [t, after @ ..] => match mark_of(&t.kind) {
            Some(Symbol::CloseParen) => Ok((
                ExprTree {
                    offset,
                    kind: ExprKind::Group(Box::new(alloc, inner)?),
                },
                after,
            )),
            _ => Err(ParseFault::Syntax),
        },
        [] => Err(ParseFault::Syntax),
    }
}

fn unary(alloc: Global, offset: u32, sign: Symbol, inner: ExprTree) -> Result<ExprTree, ParseFault>
    ensures ok { IfOk result (λ e. expr_of e ≡ unary_tree offset sign (expr_of inner)) }
    ensures fault { IfErr result (λ e. e ≡ fault.OutOfMemory) }
{
    Ok(ExprTree {
        offset,
        kind: ExprKind::Unary(sign, Box::new(alloc, inner)?),
    })
}

fn binary(
    alloc: Global,
    sign: Symbol,
    left: ExprTree,
    right: ExprTree,
) -> Result<ExprTree, ParseFault>
    ensures ok { IfOk result (λ e. expr_of e
        ≡ binary_tree (shown.offset_of (expr_of left)) sign (expr_of left) (expr_of right)) }
    ensures fault { IfErr result (λ e. e ≡ fault.OutOfMemory) }
{
    let offset = left.offset;
    Ok(ExprTree {
        offset,
        kind: ExprKind::Binary(sign, Box::new(alloc, left)?, Box::new(alloc, right)?),
    })
}

/// The same token once more, with a text of its own. It can only lack memory.
pub fn clone_token(alloc: Global, t: &Token) -> Result<Token, ParseFault>
    ensures ok { IfOk result (λ u. u ≡ t.now) }
    ensures fault { IfErr result (λ e. e ≡ fault.OutOfMemory) }
{
    let kind = match &t.kind {
        TokenKind::Name(x) => TokenKind::Name(x.try_clone(alloc)?),
        TokenKind::Word(r) => TokenKind::Word(*r),
        TokenKind::Number {
            bits,
            hexadecimal,
            long,
        } => TokenKind::Number {
            bits: *bits,
            hexadecimal: *hexadecimal,
            long: *long,
        },
        TokenKind::Character(c) => TokenKind::Character(*c),
        TokenKind::Str(x) => TokenKind::Str(x.try_clone(alloc)?),
        TokenKind::Mark(s) => TokenKind::Mark(*s),
    };
    Ok(Token {
        kind,
        offset: t.offset,
    })
}

fn is_literal(kind: &TokenKind) -> bool
    ensures { result ≡ form.is_literal kind.now }
{
    match kind {
        TokenKind::Word(Reserved::True) => true,
        TokenKind::Word(Reserved::False) => true,
        TokenKind::Number { .. } => true,
        TokenKind::Character(_) => true,
        TokenKind::Str(_) => true,
        _ => false,
    }
}

fn is_sign(s: Symbol) -> bool
    ensures { result ≡ form.is_sign s }
{
    match s {
        Symbol::Plus => true,
        Symbol::Minus => true,
        Symbol::Tilde => true,
        Symbol::Bang => true,
        _ => false,
    }
}

fn is_open(s: Symbol) -> bool
    ensures { result ≡ read.is_open s }
{
    match s {
        Symbol::OpenParen => true,
        _ => false,
    }
}
