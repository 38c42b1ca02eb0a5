//! The evaluation of an expression, with the trait that says what its names mean.
ghost use Rattle.std.specs.Prelude.{◌≡◌, IfOk, Result};
ghost use Rattle.aidl_syntax.specs.Trees.{expr_of};
ghost use Rattle.aidl_syntax.specs.declared.tree.DottedTree.{DottedTree};
ghost use Rattle.const_values.specs.Evaluation as meant;
ghost use Rattle.const_values.specs.Literals.{literal_of};
ghost use Rattle.const_values.specs.Operands as operand;
ghost use Rattle.const_values.specs.Operands.{IsWithin};
ghost use Rattle.const_values.specs.Seen.{Gives, answer, seen};
ghost use Rattle.const_values.specs.declared.fault.ConstFault.{ConstFault};

use crate::binary_values::binary;
use crate::fault::{ConstFault, EvalFault, without_memory};
use crate::literals::literal;
use crate::operand::Operand;
use crate::operator::{BinaryOperator, UnaryOperator, binary_operator, unary_operator};
use crate::unary_values::unary;
use aidl_syntax::{DottedTree, ExprKind, ExprTree, Token};
use std::alloc::Global;

/// What the names in expressions mean.
pub trait Meanings {
    /// the operand that a name means, or its fault
    ghost meaning: { Self → DottedTree → Result operand.Operand ConstFault };

    /// The operand that a name means, or its fault, as `Mismatch` where it means a constant that is none.
    fn meaning(&self, name: &DottedTree) -> Result<Operand<'_>, ConstFault>
        ensures value { answer result ≡ meaning self.now name.now }
        ensures within { IfOk result (λ value. IsWithin (seen value)) };
}

/// What an expression is, by what names mean: the left operand before the right one, the operands before the operator, both
/// sides of `&&` and `||` (own). Memory is taken for texts that are joined alone.
#[cycle(evaluate)]
pub fn evaluate<'a, M: Meanings>(
    alloc: Global,
    meanings: &'a M,
    tree: &'a ExprTree,
) -> Result<Operand<'a>, EvalFault>
    ensures value { Gives result (meant.evaluated (M.meaning meanings.now) (expr_of tree.now)) }
    ensures within { IfOk result (λ value. IsWithin (seen value)) }
{
    match &tree.kind {
        ExprKind::Literal(token) => of_token(token),
        ExprKind::Name(name) => without_memory(meanings.meaning(name)),
        ExprKind::Group(inner) => evaluate(alloc, meanings, inner),
        ExprKind::Unary(symbol, inner) => {
            let a = evaluate(alloc, meanings, inner)?;
            before(unary_operator(*symbol), &a)
        }
        ExprKind::Binary(symbol, left, right) => {
            let a = evaluate(alloc, meanings, left)?;
            let b = evaluate(alloc, meanings, right)?;
            between(alloc, binary_operator(*symbol), &a, &b)
        }
    }
}

fn of_token(token: &Token) -> Result<Operand<'_>, EvalFault>
    ensures value { Gives result (meant.or_mismatch (literal_of token.now.kind)) }
    ensures within { IfOk result (λ value. IsWithin (seen value)) }
{
    match literal(&token.kind) {
        Some(operand) => Ok(operand),
        None => Err(EvalFault::Fault(ConstFault::Mismatch)),
    }
}

fn before<'a>(operator: Option<UnaryOperator>, a: &Operand<'_>) -> Result<Operand<'a>, EvalFault>
    requires { IsWithin (seen a.now) }
    ensures value { Gives result (meant.before operator (seen a.now)) }
    ensures within { IfOk result (λ value. IsWithin (seen value)) }
{
    match operator {
        Some(operator) => without_memory(unary(operator, a)),
        None => Err(EvalFault::Fault(ConstFault::Mismatch)),
    }
}

fn between<'a>(
    alloc: Global,
    operator: Option<BinaryOperator>,
    a: &Operand<'_>,
    b: &Operand<'_>,
) -> Result<Operand<'a>, EvalFault>
    requires left { IsWithin (seen a.now) }
    requires right { IsWithin (seen b.now) }
    ensures value { Gives result (meant.between operator (seen a.now) (seen b.now)) }
    ensures within { IfOk result (λ value. IsWithin (seen value)) }
{
    match operator {
        Some(operator) => binary(alloc, operator, a, b),
        None => Err(EvalFault::Fault(ConstFault::Mismatch)),
    }
}
