//! Fields and constants: their productions.
ghost use Rattle.std.specs.Prelude.{◌≡◌, map, length, IfOk, ◌<◌};
ghost use Rattle.aidl_syntax.specs.declared.token.Symbol.TheVariants as mark;
ghost use Rattle.aidl_syntax.specs.Trees.{annots_of, expr_of, member_of};
ghost use Rattle.aidl_parser.specs.steps.Parts as part;
ghost use Rattle.aidl_parser.specs.steps.Members as read;
ghost use Rattle.aidl_parser.specs.steps.Decls as decls;
ghost use Rattle.expr_parser.specs.Gives.{Gives};

use crate::lists::maybe_behind;
use crate::parts::{quoted, worded};
use crate::types::{ident, type_of};
use aidl_base::Row;
use aidl_syntax::{
    AnnotTree, ConstantTree, ExprTree, FieldTree, MemberTree, Reserved, Symbol, Token,
};
use expr_parser::{Level, ParseFault, expr};
use std::alloc::Global;

// type ident ["=" init] ";"
#[tactic(auto, unfolding(crate::specs::steps::Members::field_at, crate::specs::steps::Members::initial_at))]
pub fn field<'a>(
    alloc: Global,
    fuel: usize,
    offset: u32,
    annots: Row<AnnotTree>,
    tokens: &'a [Token],
) -> Result<(MemberTree, &'a [Token]), ParseFault>
    requires { length tokens.now < fuel }
    ensures gives { Gives (λ x. (member_of x.0, x.1.now)) result (part.alter
        (decls.field_made offset (annots_of annots)) (read.field_at fuel) tokens.entry.now) }
    ensures left { IfOk result (λ x. length x.1.now < length tokens.entry.now) }
{
    let (ty, rest) = type_of(alloc, tokens)?;
    let (name, rest) = ident(alloc, rest)?;
    let (initial, rest) = maybe_behind(alloc, fuel, Symbol::Equal, rest)?;
    let (_end, rest) = quoted(Symbol::Semicolon, rest)?;
    Ok((
        MemberTree::Field(FieldTree {
            offset,
            annots,
            ty,
            name,
            initial,
        }),
        rest,
    ))
}

// "const" type ident "=" expr ";"
#[tactic(auto, unfolding(crate::specs::steps::Members::constant_at))]
pub fn constant<'a>(
    alloc: Global,
    fuel: usize,
    offset: u32,
    annots: Row<AnnotTree>,
    tokens: &'a [Token],
) -> Result<(MemberTree, &'a [Token]), ParseFault>
    requires { length tokens.now < fuel }
    ensures gives { Gives (λ x. (member_of x.0, x.1.now)) result (part.alter
        (decls.constant_made offset (annots_of annots)) (read.constant_at fuel) tokens.entry.now) }
    ensures left { IfOk result (λ x. length x.1.now < length tokens.entry.now) }
{
    let (_word, rest) = worded(Reserved::Const, tokens)?;
    let (ty, rest) = type_of(alloc, rest)?;
    let (name, rest) = ident(alloc, rest)?;
    let (value, rest) = value(alloc, fuel, rest)?;
    Ok((
        MemberTree::Constant(ConstantTree {
            offset,
            annots,
            ty,
            name,
            value,
        }),
        rest,
    ))
}

// "=" expr ";"
#[tactic(auto, unfolding(crate::specs::steps::Members::value_at))]
fn value<'a>(
    alloc: Global,
    fuel: usize,
    tokens: &'a [Token],
) -> Result<(ExprTree, &'a [Token]), ParseFault>
    requires { length tokens.now < fuel }
    ensures gives { Gives (λ x. (expr_of x.0, x.1.now)) result
        (read.value_at fuel tokens.entry.now) }
    ensures left { IfOk result (λ x. length x.1.now < length tokens.entry.now) }
{
    let (_sign, rest) = quoted(Symbol::Equal, tokens)?;
    let (value, rest) = expr(alloc, fuel, Level::Or, rest)?;
    let (_end, rest) = quoted(Symbol::Semicolon, rest)?;
    Ok((value, rest))
}
