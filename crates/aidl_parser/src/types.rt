//! Parsing types, dotted names and identifiers.
ghost use Rattle.std.specs.Prelude.{◌≡◌, length, IfOk, ◌<◌, ◌≤◌};
ghost use Rattle.aidl_syntax.specs.declared.token.Symbol.TheVariants as mark;
ghost use Rattle.aidl_parser.specs.steps.Parts as part;
ghost use Rattle.aidl_parser.specs.steps.Types as read;
ghost use Rattle.expr_parser.specs.Gives.{Gives};
ghost use Rattle.expr_parser.specs.Reading as names;
ghost use Rattle.aidl_syntax.specs.declared.tree.DottedTree.{DottedTree};

use crate::lists::Part;
use crate::parts::{begins, quoted};
use aidl_syntax::{DottedTree, NameTree, Symbol, Token, TypeTree};
use expr_parser::{ParseFault, dotted, first, name_of};
use std::alloc::Global;

/// `dotted ["<" dotted ">"] ["[" "]"]`: the type, and what follows it; `Syntax` where none stands first.
#[tactic(auto, unfolding(crate::specs::steps::Types::type_at))]
pub fn type_of<'a>(
    alloc: Global,
    tokens: &'a [Token],
) -> Result<(TypeTree, &'a [Token]), ParseFault>
    ensures gives { Gives (λ x. (x.0, x.1.now)) result (read.type_at tokens.entry.now) }
    ensures left { IfOk result (λ x. length x.1.now < length tokens.entry.now) }
{
    let (name, rest) = dotted(alloc, tokens)?;
    let (element, rest) = maybe_element(alloc, rest)?;
    let (array, rest) = array(rest)?;
    Ok((
        TypeTree {
            offset: first(tokens),
            name,
            element,
            array,
        },
        rest,
    ))
}

// ["<" dotted ">"]
#[tactic(auto, unfolding(crate::specs::steps::Types::element))]
fn maybe_element<'a>(
    alloc: Global,
    tokens: &'a [Token],
) -> Result<(Option<DottedTree>, &'a [Token]), ParseFault>
    ensures gives { Gives (λ x. (x.0, x.1.now)) result
        (part.maybe (part.begins mark.Less) read.element tokens.entry.now) }
    ensures left { IfOk result (λ x. length x.1.now ≤ length tokens.entry.now) }
{
    if begins(Symbol::Less, tokens) {
        let (_begin, rest) = quoted(Symbol::Less, tokens)?;
        let (name, rest) = dotted(alloc, rest)?;
        let (_end, rest) = quoted(Symbol::Greater, rest)?;
        Ok((Some(name), rest))
    } else {
        Ok((None, tokens))
    }
}

#[tactic(auto, unfolding(crate::specs::steps::Types::array))]
fn array<'a>(tokens: &'a [Token]) -> Result<(bool, &'a [Token]), ParseFault>
    ensures gives { Gives (λ x. (x.0, x.1.now)) result (read.array tokens.entry.now) }
    ensures left { IfOk result (λ x. length x.1.now ≤ length tokens.entry.now) }
{
    if begins(Symbol::OpenBracket, tokens) {
        let (_begin, rest) = quoted(Symbol::OpenBracket, tokens)?;
        let (_end, rest) = quoted(Symbol::CloseBracket, rest)?;
        Ok((true, rest))
    } else {
        Ok((false, tokens))
    }
}

/// The identifier, and what follows it; `Syntax` where none stands first.
pub fn ident<'a>(alloc: Global, tokens: &'a [Token]) -> Result<(NameTree, &'a [Token]), ParseFault>
    ensures gives { Gives (λ x. (x.0, x.1.now)) result (read.ident tokens.entry.now) }
    ensures left { IfOk result (λ x. length x.1.now < length tokens.entry.now) }
{
    match tokens {
        [t, rest @ ..] => {
            let name = name_of(alloc, &t.kind)?;
            Ok((
                NameTree {
                    offset: t.offset,
                    name,
                },
                rest,
            ))
        }
        [] => Err(ParseFault::Syntax),
    }
}

impl Part for DottedTree {
    ghost Seen = { DottedTree };

    ghost seen = { λ d. d };

    ghost read = { λ _ ts. names.dotted ts };

    fn part<'a>(
        alloc: Global,
        _fuel: usize,
        tokens: &'a [Token],
    ) -> Result<(Self, &'a [Token]), ParseFault> {
        dotted(alloc, tokens)
    }
}
