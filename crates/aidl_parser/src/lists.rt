//! Parsing lists, repetitions and optional parts, whatever part of the productions stands in them.
ghost use Rattle.std.specs.Prelude.{◌≡◌, ℕ, List, Option, map, length, IfOk, ◌<◌, ◌≤◌};
ghost use Rattle.aidl_syntax.specs.declared.token.Token.{Token};
ghost use Rattle.aidl_syntax.specs.declared.token.Symbol.TheVariants as mark;
ghost use Rattle.aidl_syntax.specs.Trees.{map_option};
ghost use Rattle.expr_parser.specs.Reading.{Read};
ghost use Rattle.aidl_parser.specs.steps.Parts as part;
ghost use Rattle.aidl_parser.specs.steps.Inits as inits;
ghost use Rattle.aidl_parser.specs.steps.Repeats as repeats;
ghost use Rattle.expr_parser.specs.Gives.{Gives};

use crate::parts::{begins, begins_word, quoted, worded};
use aidl_base::Row;
use aidl_syntax::{Reserved, Symbol, Token};
use expr_parser::ParseFault;
use std::alloc::Global;

/// A part of the productions that stands in lists or behind a symbol, read by its type.
pub trait Part: Drop + Sized {
    /// what contracts see of it
    ghost Seen: { Type 0 };

    /// how it is seen
    ghost seen: { Self → Seen };

    /// what reading gives, by fuel
    ghost read: { ℕ → List Token → Read Seen };

    /// Reads it off the front of the tokens, of which it takes one at least; `Syntax` where it doesn't stand first.
    fn part<'a>(
        alloc: Global,
        fuel: usize,
        tokens: &'a [Token],
    ) -> Result<(Self, &'a [Token]), ParseFault>
        requires { length tokens.now < fuel }
        ensures gives { Gives (λ x. (seen x.0, x.1.now)) result (read fuel tokens.entry.now) }
        ensures left { IfOk result (λ x. length x.1.now < length tokens.entry.now) };
}

/// A repetition, by the signs around its items.
#[derive(Clone, Copy)]
pub enum Repeat {
    /// {"," x}
    Commas,
    /// {"," x}, where "," may stand before "}"
    CommasInBraces,
    /// {x}, where each begins with "@"
    Annotations,
    /// {"import" x ";"}
    Imports,
}

/// Items as long as one more stands there, behind those that were read, and what follows them. The first item that can't
/// be read refuses them all. Each round takes a token at least, so that there are rounds for all of them.
pub fn many<'a, T: Part>(
    alloc: Global,
    fuel: usize,
    repeat: Repeat,
    items: Row<T>,
    tokens: &'a [Token],
) -> Result<(Row<T>, &'a [Token]), ParseFault>
    requires { length tokens.now < fuel }
    ensures gives { Gives (λ x. (map T.seen x.0, x.1.now)) result (part.with_items
        (map T.seen items) (repeats.many_by fuel repeat (T.read fuel) tokens.entry.now)) }
    ensures left { IfOk result (λ x. length x.1.now ≤ length tokens.entry.now) }
{
    let mut all = items;
    let mut rest = tokens;
    let mut rounds = fuel;
    'rounds: while goes_on(repeat, rest) {
        rounds -= 1;
        let (item, next) = round(alloc, fuel, repeat, rest)?;
        all.push(item)?;
        rest = next;
    }
    Ok((all, rest))
}

fn goes_on(repeat: Repeat, tokens: &[Token]) -> bool
    ensures { result ≡ repeats.goes_on repeat tokens.now }
{
    match repeat {
        Repeat::Commas => begins(Symbol::Comma, tokens),
        Repeat::CommasInBraces => goes_inside(tokens),
        Repeat::Annotations => begins(Symbol::At, tokens),
        Repeat::Imports => begins_word(Reserved::Import, tokens),
    }
}

// A comma, and not the closing brace behind it.
fn goes_inside(tokens: &[Token]) -> bool
    ensures { result ≡ inits.goes_inside tokens.now }
{
    match tokens {
        [_, rest @ ..] => begins(Symbol::Comma, tokens) && !begins(Symbol::CloseBrace, rest),
        [] => false,
    }
}

// An item with the signs around it.
fn round<'a, T: Part>(
    alloc: Global,
    fuel: usize,
    repeat: Repeat,
    tokens: &'a [Token],
) -> Result<(T, &'a [Token]), ParseFault>
    requires { length tokens.now < fuel }
    ensures gives { Gives (λ x. (T.seen x.0, x.1.now)) result
        (repeats.round repeat (T.read fuel) tokens.entry.now) }
    ensures left { IfOk result (λ x. length x.1.now < length tokens.entry.now) }
{
    match repeat {
        Repeat::Commas | Repeat::CommasInBraces => behind(alloc, fuel, Symbol::Comma, tokens),
        Repeat::Annotations => T::part(alloc, fuel, tokens),
        Repeat::Imports => statement(alloc, fuel, Reserved::Import, tokens),
    }
}

/// A reserved word, x and ";", and what follows them; `Syntax` where another token stands.
pub fn statement<'a, T: Part>(
    alloc: Global,
    fuel: usize,
    word: Reserved,
    tokens: &'a [Token],
) -> Result<(T, &'a [Token]), ParseFault>
    requires { length tokens.now < fuel }
    ensures gives { Gives (λ x. (T.seen x.0, x.1.now)) result (part.alter part.second
        (part.both (part.worded word) (part.upto (T.read fuel) mark.Semicolon)) tokens.entry.now) }
    ensures left { IfOk result (λ x. length x.1.now < length tokens.entry.now) }
{
    let (_word, rest) = worded(word, tokens)?;
    let (item, rest) = T::part(alloc, fuel, rest)?;
    let (_end, rest) = quoted(Symbol::Semicolon, rest)?;
    Ok((item, rest))
}

// A symbol, and x behind it.
pub fn behind<'a, T: Part>(
    alloc: Global,
    fuel: usize,
    s: Symbol,
    tokens: &'a [Token],
) -> Result<(T, &'a [Token]), ParseFault>
    requires { length tokens.now < fuel }
    ensures gives { Gives (λ x. (T.seen x.0, x.1.now)) result
        (part.behind s (T.read fuel) tokens.entry.now) }
    ensures left { IfOk result (λ x. length x.1.now < length tokens.entry.now) }
{
    let (_sign, rest) = quoted(s, tokens)?;
    T::part(alloc, fuel, rest)
}

/// `[s x]`: what stands behind the symbol, where the symbol stands first.
pub fn maybe_behind<'a, T: Part>(
    alloc: Global,
    fuel: usize,
    s: Symbol,
    tokens: &'a [Token],
) -> Result<(Option<T>, &'a [Token]), ParseFault>
    requires { length tokens.now < fuel }
    ensures gives { Gives (λ x. (map_option T.seen x.0, x.1.now)) result
        (part.maybe (part.begins s) (part.behind s (T.read fuel)) tokens.entry.now) }
    ensures left { IfOk result (λ x. length x.1.now ≤ length tokens.entry.now) }
{
    if begins(s, tokens) {
        let (item, rest) = behind(alloc, fuel, s, tokens)?;
        Ok((Some(item), rest))
    } else {
        Ok((None, tokens))
    }
}

// x and the rounds behind it
#[tactic(auto, using(crate::proofs::lemmas::Rounds::with_first))]
fn listed<'a, T: Part>(
    alloc: Global,
    fuel: usize,
    repeat: Repeat,
    tokens: &'a [Token],
) -> Result<(Row<T>, &'a [Token]), ParseFault>
    requires { length tokens.now < fuel }
    ensures gives { Gives (λ x. (map T.seen x.0, x.1.now)) result
        (repeats.listed_by fuel repeat (T.read fuel) tokens.entry.now) }
    ensures left { IfOk result (λ x. length x.1.now < length tokens.entry.now) }
{
    let (first, rest) = T::part(alloc, fuel, tokens)?;
    let mut items = Row::new(alloc);
    items.push(first)?;
    many(alloc, fuel, repeat, items, rest)
}

/// `"(" [x {"," x}] ")"`: the items, and what follows the closing sign; `Syntax` where a sign is wanted and isn't there.
pub fn in_parens<'a, T: Part>(
    alloc: Global,
    fuel: usize,
    tokens: &'a [Token],
) -> Result<(Row<T>, &'a [Token]), ParseFault>
    requires { length tokens.now < fuel }
    ensures gives { Gives (λ x. (map T.seen x.0, x.1.now)) result (part.behind mark.OpenParen
        (part.upto (inits.maybe_listed fuel (T.read fuel)) mark.CloseParen) tokens.entry.now) }
    ensures left { IfOk result (λ x. length x.1.now < length tokens.entry.now) }
{
    let (_begin, rest) = quoted(Symbol::OpenParen, tokens)?;
    let (items, rest) = maybe_listed(alloc, fuel, rest)?;
    let (_end, rest) = quoted(Symbol::CloseParen, rest)?;
    Ok((items, rest))
}

// [x {"," x}]
#[tactic(auto, unfolding(crate::specs::steps::Inits::maybe_listed))]
fn maybe_listed<'a, T: Part>(
    alloc: Global,
    fuel: usize,
    tokens: &'a [Token],
) -> Result<(Row<T>, &'a [Token]), ParseFault>
    requires { length tokens.now < fuel }
    ensures gives { Gives (λ x. (map T.seen x.0, x.1.now)) result
        (inits.maybe_listed fuel (T.read fuel) tokens.entry.now) }
    ensures left { IfOk result (λ x. length x.1.now ≤ length tokens.entry.now) }
{
    if begins(Symbol::CloseParen, tokens) {
        Ok((Row::new(alloc), tokens))
    } else {
        listed(alloc, fuel, Repeat::Commas, tokens)
    }
}

// [x {"," x} [","]]
#[tactic(auto, unfolding(crate::specs::steps::Inits::maybe_trailing))]
pub fn maybe_trailing<'a, T: Part>(
    alloc: Global,
    fuel: usize,
    tokens: &'a [Token],
) -> Result<(Row<T>, &'a [Token]), ParseFault>
    requires { length tokens.now < fuel }
    ensures gives { Gives (λ x. (map T.seen x.0, x.1.now)) result
        (inits.maybe_trailing fuel (T.read fuel) tokens.entry.now) }
    ensures left { IfOk result (λ x. length x.1.now ≤ length tokens.entry.now) }
{
    if begins(Symbol::CloseBrace, tokens) {
        Ok((Row::new(alloc), tokens))
    } else {
        trailing(alloc, fuel, tokens)
    }
}

/// `x {"," x} [","]`: at least one item before "}", where a comma may stand behind the last.
#[tactic(auto, unfolding(crate::specs::steps::Inits::trailing))]
pub fn trailing<'a, T: Part>(
    alloc: Global,
    fuel: usize,
    tokens: &'a [Token],
) -> Result<(Row<T>, &'a [Token]), ParseFault>
    requires { length tokens.now < fuel }
    ensures gives { Gives (λ x. (map T.seen x.0, x.1.now)) result
        (inits.trailing fuel (T.read fuel) tokens.entry.now) }
    ensures left { IfOk result (λ x. length x.1.now < length tokens.entry.now) }
{
    let (items, rest) = listed(alloc, fuel, Repeat::CommasInBraces, tokens)?;
    let (_comma, rest) = maybe_comma(rest)?;
    Ok((items, rest))
}

// [","]
fn maybe_comma<'a>(tokens: &'a [Token]) -> Result<(Option<()>, &'a [Token]), ParseFault>
    ensures gives { Gives (λ x. (x.0, x.1.now)) result
        (part.maybe (part.begins mark.Comma) (part.quoted mark.Comma) tokens.entry.now) }
    ensures left { IfOk result (λ x. length x.1.now ≤ length tokens.entry.now) }
{
    if begins(Symbol::Comma, tokens) {
        let (comma, rest) = quoted(Symbol::Comma, tokens)?;
        Ok((Some(comma), rest))
    } else {
        Ok((None, tokens))
    }
}
