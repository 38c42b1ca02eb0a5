//! Declarations: the productions of parcelables, unions, enums and interfaces, and of their members.
ghost use Rattle.std.specs.Prelude.{◌≡◌, ◌+◌, ◌-◌, ◌<◌, map, Some, length, IfOk, ◌≤◌};
ghost use Rattle.aidl_syntax.specs.declared.token.Symbol.TheVariants as mark;
ghost use Rattle.aidl_base.specs.declared.reserved.Reserved.TheVariants as word;
ghost use Rattle.aidl_syntax.specs.Trees.{annots_of, enumerator_of, members_of, member_of, body_of, decl_of};
ghost use Rattle.aidl_syntax.specs.Trees.Decl.{decl as decl_seen};
ghost use Rattle.aidl_syntax.specs.Trees.Body.{parcelable, union, enum as enum_seen, interface};
ghost use Rattle.aidl_parser.specs.steps.Parts as part;
ghost use Rattle.aidl_parser.specs.steps.Decls as read;
ghost use Rattle.expr_parser.specs.Gives.{Gives};

use crate::annotations::annots;
use crate::fields::{constant, field};
use crate::lists::trailing;
use crate::methods::{method, oneway};
use crate::parts::{begins, begins_word, quoted, word_of, worded};
use crate::types::ident;
use aidl_base::Row;
use aidl_syntax::{
    AnnotTree, BodyTree, DeclTree, EnumeratorTree, MemberTree, NameTree, Reserved, Symbol, Token,
};
use expr_parser::{ParseFault, first};
use std::alloc::Global;

// A declaration, behind its annotations.
#[cycle(decl)]
#[tactic(auto, using(crate::proofs::MemberRounds::decl_step))]
pub fn decl<'a>(
    alloc: Global,
    fuel: usize,
    offset: u32,
    annots: Row<AnnotTree>,
    tokens: &'a [Token],
) -> Result<(DeclTree, &'a [Token]), ParseFault>
    requires { length tokens.now < fuel }
    ensures gives { Gives (λ x. (decl_of x.0, x.1.now)) result
        (read.decl_at fuel offset (annots_of annots) tokens.entry.now) }
    ensures left { IfOk result (λ x. length x.1.now < length tokens.entry.now) }
{
    decl_by(alloc, fuel, offset, annots, tokens)
}

#[cycle(decl)]
fn decl_by<'a>(
    alloc: Global,
    fuel: usize,
    offset: u32,
    annots: Row<AnnotTree>,
    tokens: &'a [Token],
) -> Result<(DeclTree, &'a [Token]), ParseFault>
    requires { length tokens.now < fuel }
    ensures gives { Gives (λ x. (decl_of x.0, x.1.now)) result
        (part.alter (read.declared offset (annots_of annots))
        (read.body_by (λ inside us. read.members_at fuel fuel inside us) fuel) tokens.entry.now) }
    ensures left { IfOk result (λ x. length x.1.now < length tokens.entry.now) }
{
    let ((name, body), rest) = body(alloc, fuel, tokens)?;
    Ok((
        DeclTree {
            offset,
            annots,
            name,
            body,
        },
        rest,
    ))
}

// parcelable | union | enum | interface
#[cycle(decl)]
#[tactic(auto, unfolding(crate::specs::steps::Decls::body_by))]
fn body<'a>(
    alloc: Global,
    fuel: usize,
    tokens: &'a [Token],
) -> Result<((NameTree, BodyTree), &'a [Token]), ParseFault>
    requires { length tokens.now < fuel }
    ensures gives { Gives (λ x. ((x.0.0, body_of x.0.1), x.1.now)) result
        (read.body_by (λ inside us. read.members_at fuel fuel inside us) fuel tokens.entry.now) }
    ensures left { IfOk result (λ x. length x.1.now < length tokens.entry.now) }
{
    if begins_word(Reserved::Parcelable, tokens) {
        let ((name, members), rest) = braced(alloc, fuel, Reserved::Parcelable, false, tokens)?;
        Ok(((name, BodyTree::Parcelable(members)), rest))
    } else if begins_word(Reserved::Union, tokens) {
        let ((name, members), rest) = braced(alloc, fuel, Reserved::Union, false, tokens)?;
        Ok(((name, BodyTree::Union(members)), rest))
    } else if begins_word(Reserved::Enum, tokens) {
        let ((name, items), rest) = enum_body(alloc, fuel, tokens)?;
        Ok(((name, BodyTree::Enum(items)), rest))
    } else {
        let (oneway, rest) = oneway(tokens)?;
        let ((name, members), rest) = braced(alloc, fuel, Reserved::Interface, true, rest)?;
        Ok(((name, BodyTree::Interface { oneway, members }), rest))
    }
}

// A word, a name and members in braces.
#[cycle(decl)]
#[tactic(auto, unfolding(crate::specs::steps::Decls::braced_at))]
fn braced<'a>(
    alloc: Global,
    fuel: usize,
    word: Reserved,
    inside: bool,
    tokens: &'a [Token],
) -> Result<((NameTree, Row<MemberTree>), &'a [Token]), ParseFault>
    requires { length tokens.now < fuel }
    ensures gives { Gives (λ x. ((x.0.0, members_of x.0.1), x.1.now)) result (read.braced_at
        (λ inner us. read.members_at fuel fuel inner us) word inside tokens.entry.now) }
    ensures left { IfOk result (λ x. length x.1.now < length tokens.entry.now) }
{
    let (name, rest) = head(alloc, word, tokens)?;
    let (items, rest) = members(alloc, fuel, inside, rest)?;
    let (_end, rest) = quoted(Symbol::CloseBrace, rest)?;
    Ok(((name, items), rest))
}

// Members up to a closing brace; `inside` says whether they are those of an interface.
#[cycle(decl)]
fn members<'a>(
    alloc: Global,
    fuel: usize,
    inside: bool,
    tokens: &'a [Token],
) -> Result<(Row<MemberTree>, &'a [Token]), ParseFault>
    requires { length tokens.now + 1 < fuel }
    ensures gives { Gives (λ x. (members_of x.0, x.1.now)) result
        (read.members_at fuel fuel inside tokens.entry.now) }
    ensures left { IfOk result (λ x. length x.1.now ≤ length tokens.entry.now) }
{
    let mut all = Row::new(alloc);
    let mut rest = tokens;
    let mut rounds = fuel;
    'rounds: while !begins(Symbol::CloseBrace, rest) {
        rounds -= 1;
        let (item, next) = member(alloc, fuel, inside, rest)?;
        all.push(item)?;
        rest = next;
    }
    Ok((all, rest))
}

#[cycle(decl)]
#[tactic(auto, unfolding(crate::specs::steps::Decls::member_with))]
fn member<'a>(
    alloc: Global,
    fuel: usize,
    inside: bool,
    tokens: &'a [Token],
) -> Result<(MemberTree, &'a [Token]), ParseFault>
    requires { length tokens.now + 1 < fuel }
    ensures gives { Gives (λ x. (member_of x.0, x.1.now)) result
        (read.member_at fuel inside tokens.entry.now) }
    ensures left { IfOk result (λ x. length x.1.now < length tokens.entry.now) }
{
    let (annots, rest) = annots(alloc, fuel, tokens)?;
    member_by(alloc, fuel, inside, first(tokens), annots, rest)
}

// What follows a member's annotations.
#[cycle(decl)]
#[tactic(auto, unfolding(crate::specs::steps::Decls::member_by))]
fn member_by<'a>(
    alloc: Global,
    fuel: usize,
    inside: bool,
    offset: u32,
    annots: Row<AnnotTree>,
    tokens: &'a [Token],
) -> Result<(MemberTree, &'a [Token]), ParseFault>
    requires { length tokens.now + 1 < fuel }
    ensures gives { Gives (λ x. (member_of x.0, x.1.now)) result
        (read.member_by (λ p annotations ws. read.decl_at (fuel - 1) p annotations ws)
        fuel inside offset (annots_of annots) tokens.entry.now) }
    ensures left { IfOk result (λ x. length x.1.now < length tokens.entry.now) }
{
    if begins_word(Reserved::Const, tokens) {
        constant(alloc, fuel, offset, annots, tokens)
    } else if begins_decl(tokens) {
        let (inner, rest) = decl(alloc, fuel - 1, offset, annots, tokens)?;
        Ok((MemberTree::Nested(inner), rest))
    } else if inside {
        method(alloc, fuel, offset, annots, tokens)
    } else {
        field(alloc, fuel, offset, annots, tokens)
    }
}

// A reserved word, an identifier and "{".
#[tactic(auto, unfolding(crate::specs::steps::Decls::head_at))]
fn head<'a>(
    alloc: Global,
    word: Reserved,
    tokens: &'a [Token],
) -> Result<(NameTree, &'a [Token]), ParseFault>
    ensures gives { Gives (λ x. (x.0, x.1.now)) result (read.head_at word tokens.entry.now) }
    ensures left { IfOk result (λ x. length x.1.now < length tokens.entry.now) }
{
    let (_word, rest) = worded(word, tokens)?;
    let (name, rest) = ident(alloc, rest)?;
    let (_begin, rest) = quoted(Symbol::OpenBrace, rest)?;
    Ok((name, rest))
}

// "enum" ident "{" enumerator {"," enumerator} [","] "}"
#[tactic(auto, unfolding(crate::specs::steps::Decls::enum_at))]
fn enum_body<'a>(
    alloc: Global,
    fuel: usize,
    tokens: &'a [Token],
) -> Result<((NameTree, Row<EnumeratorTree>), &'a [Token]), ParseFault>
    requires { length tokens.now < fuel }
    ensures gives { Gives (λ x. ((x.0.0, map enumerator_of x.0.1), x.1.now)) result
        (read.enum_at fuel tokens.entry.now) }
    ensures left { IfOk result (λ x. length x.1.now < length tokens.entry.now) }
{
    let (name, rest) = head(alloc, Reserved::Enum, tokens)?;
    let (items, rest) = trailing(alloc, fuel, rest)?;
    let (_end, rest) = quoted(Symbol::CloseBrace, rest)?;
    Ok(((name, items), rest))
}

fn begins_decl(tokens: &[Token]) -> bool
    ensures { result ≡ read.begins_decl tokens.now }
{
    match tokens {
        [t, rest @ ..] => declares(word_of(&t.kind), begins_word(Reserved::Interface, rest)),
        [] => false,
    }
}

fn declares(word: Option<Reserved>, inside: bool) -> bool
    ensures { result ≡ read.declares word inside }
{
    match word {
        Some(Reserved::Parcelable) => true,
        Some(Reserved::Union) => true,
        Some(Reserved::Enum) => true,
        Some(Reserved::Interface) => true,
        Some(Reserved::Oneway) => inside,
        _ => false,
    }
}
