//! Methods: their production, with `oneway` and the result.
ghost use Rattle.std.specs.Prelude.{◌≡◌, map, [], ◌++◌, length, IfOk, ◌<◌, ◌≤◌};
ghost use Rattle.aidl_syntax.specs.declared.token.Symbol.TheVariants as mark;
ghost use Rattle.aidl_base.specs.declared.reserved.Reserved.TheVariants as word;
ghost use Rattle.aidl_syntax.specs.Trees.{annots_of, arg_of, member_of};
ghost use Rattle.aidl_parser.specs.steps.Parts as part;
ghost use Rattle.aidl_parser.specs.steps.Members as read;
ghost use Rattle.aidl_parser.specs.steps.Decls as decls;
ghost use Rattle.expr_parser.specs.Gives.{Gives};

use crate::lists::{in_parens, maybe_behind};
use crate::parts::{begins_word, quoted, worded};
use crate::types::{ident, type_of};
use aidl_base::Row;
use aidl_syntax::{AnnotTree, MemberTree, MethodTree, Reserved, Symbol, Token, TypeTree};
use expr_parser::ParseFault;
use std::alloc::Global;

// ["oneway"] (type | "void") ident "(" [arg {"," arg}] ")" ["=" number] ";"
#[tactic(auto, unfolding(crate::specs::steps::Members::method_at, crate::specs::steps::Members::args_at))]
pub fn method<'a>(
    alloc: Global,
    fuel: usize,
    offset: u32,
    annots: Row<AnnotTree>,
    tokens: &'a [Token],
) -> Result<(MemberTree, &'a [Token]), ParseFault>
    requires { length tokens.now < fuel }
    ensures gives { Gives (λ x. (member_of x.0, x.1.now)) result (part.alter
        (decls.method_made offset (annots_of annots)) (read.method_at fuel) tokens.entry.now) }
    ensures left { IfOk result (λ x. length x.1.now < length tokens.entry.now) }
{
    let (oneway, rest) = oneway(tokens)?;
    let (result, rest) = returned(alloc, rest)?;
    let (name, rest) = ident(alloc, rest)?;
    let (args, rest) = in_parens(alloc, fuel, rest)?;
    let (id, rest) = id_and_end(alloc, fuel, rest)?;
    Ok((
        MemberTree::Method(MethodTree {
            offset,
            annots,
            oneway,
            result,
            name,
            args,
            id,
        }),
        rest,
    ))
}

// ["=" number] ";"
#[tactic(auto, unfolding(crate::specs::steps::Members::id_at))]
fn id_and_end<'a>(
    alloc: Global,
    fuel: usize,
    tokens: &'a [Token],
) -> Result<(Option<Token>, &'a [Token]), ParseFault>
    requires { length tokens.now < fuel }
    ensures gives { Gives (λ x. (x.0, x.1.now)) result (part.upto
        (part.maybe (part.begins mark.Equal) read.id_at) mark.Semicolon tokens.entry.now) }
    ensures left { IfOk result (λ x. length x.1.now < length tokens.entry.now) }
{
    let (id, rest) = maybe_behind(alloc, fuel, Symbol::Equal, tokens)?;
    let (_end, rest) = quoted(Symbol::Semicolon, rest)?;
    Ok((id, rest))
}

// ["oneway"]
#[tactic(auto, unfolding(crate::specs::steps::Members::oneway_at))]
pub fn oneway<'a>(tokens: &'a [Token]) -> Result<(bool, &'a [Token]), ParseFault>
    ensures gives { Gives (λ x. (x.0, x.1.now)) result (read.oneway_at tokens.entry.now) }
    ensures left { IfOk result (λ x. length x.1.now ≤ length tokens.entry.now) }
{
    if begins_word(Reserved::Oneway, tokens) {
        let (_word, rest) = worded(Reserved::Oneway, tokens)?;
        Ok((true, rest))
    } else {
        Ok((false, tokens))
    }
}

// type | "void"
#[tactic(auto, unfolding(crate::specs::steps::Members::returned_at))]
fn returned<'a>(
    alloc: Global,
    tokens: &'a [Token],
) -> Result<(Option<TypeTree>, &'a [Token]), ParseFault>
    ensures gives { Gives (λ x. (x.0, x.1.now)) result (read.returned_at tokens.entry.now) }
    ensures left { IfOk result (λ x. length x.1.now < length tokens.entry.now) }
{
    if begins_word(Reserved::Void, tokens) {
        let (_word, rest) = worded(Reserved::Void, tokens)?;
        Ok((None, rest))
    } else {
        let (ty, rest) = type_of(alloc, tokens)?;
        Ok((Some(ty), rest))
    }
}
