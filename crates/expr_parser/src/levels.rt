//! The levels of binary operators: which one binds more than which.
ghost use Rattle.std.specs.Prelude.{◌≡◌, ◌+◌, ◌<◌, ◌≤◌, MatchOption, false};
ghost use Rattle.aidl_syntax.specs.Productions as form;
ghost use Rattle.expr_parser.specs.Levels.{rank as rank_of, level_rank, IsOperator};
ghost use Rattle.expr_parser.specs.Reading as read;

use crate::tokens::mark_of;
use aidl_syntax::{Symbol, TokenKind};

/// The productions of expressions, from the one whose operator binds least. The operands of one are of the next.
#[derive(Clone, Copy)]
pub enum Level {
    /// `||`
    Or,
    /// `&&`
    And,
    /// `|`
    BitOr,
    /// `^`
    BitXor,
    /// `&`
    BitAnd,
    /// `==` and `!=`
    Equal,
    /// `<`, `>`, `<=` and `>=`
    Less,
    /// `<<` and `>>`
    Shift,
    /// `+` and `-`
    Sum,
    /// `*`, `/` and `%`
    Product,
    /// a sign before its operand
    Unary,
}

// The binary operator of this level or above that a token is, and its level.
pub fn operator(least: Level, kind: &TokenKind) -> Option<(Symbol, Level)>
    ensures { MatchOption result (read.goes_on (rank_of least) (read.level_by (read.mark_of
        kind.now)) ≡ false) (λ x. IsOperator (rank_of least) (read.mark_of kind.now) x.0 x.1) }
{
    let sign = mark_of(kind)?;
    let level = level_of(sign)?;
    if rank(least) <= rank(level) {
        Some((sign, level))
    } else {
        None
    }
}

fn level_of(s: Symbol) -> Option<Level>
    ensures value { level_rank result ≡ form.level s }
    ensures most { level_rank result ≤ 10 }
{
    match s {
        Symbol::OrOr => Some(Level::Or),
        Symbol::AndAnd => Some(Level::And),
        Symbol::Or => Some(Level::BitOr),
        Symbol::Caret => Some(Level::BitXor),
        Symbol::And => Some(Level::BitAnd),
        Symbol::EqualEqual | Symbol::NotEqual => Some(Level::Equal),
        Symbol::Less | Symbol::Greater | Symbol::LessEqual | Symbol::GreaterEqual => {
            Some(Level::Less)
        }
        Symbol::ShiftLeft | Symbol::ShiftRight => Some(Level::Shift),
        Symbol::Plus | Symbol::Minus => Some(Level::Sum),
        Symbol::Star | Symbol::Slash | Symbol::Percent => Some(Level::Product),
        _ => None,
    }
}

fn rank(level: Level) -> u8
    ensures value { result ≡ rank_of level }
    ensures some { 0 < result }
{
    match level {
        Level::Or => 1,
        Level::And => 2,
        Level::BitOr => 3,
        Level::BitXor => 4,
        Level::BitAnd => 5,
        Level::Equal => 6,
        Level::Less => 7,
        Level::Shift => 8,
        Level::Sum => 9,
        Level::Product => 10,
        Level::Unary => 11,
    }
}

// The level of an operator's right operand.
pub fn above(level: Level) -> Level
    requires { rank_of level ≤ 10 }
    ensures { rank_of result ≡ rank_of level + 1 }
{
    match level {
        Level::Or => Level::And,
        Level::And => Level::BitOr,
        Level::BitOr => Level::BitXor,
        Level::BitXor => Level::BitAnd,
        Level::BitAnd => Level::Equal,
        Level::Equal => Level::Less,
        Level::Less => Level::Shift,
        Level::Shift => Level::Sum,
        Level::Sum => Level::Product,
        Level::Product => Level::Unary,
        Level::Unary => unreachable!(),
    }
}
