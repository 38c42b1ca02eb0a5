//! The place of the syntax fault of a list of tokens, found by running the automaton over them.
ghost use Rattle.std.specs.Prelude.{◌≡◌, ◌⊎◌, ℕ, map, reverse, Some, None, IfOk, MatchOption};
ghost use Rattle.parse_places.specs.Viable.{HasTree, Viable, IsFaultPlace};
ghost use Rattle.parse_places.specs.steps.Places as places;

use crate::expected::Expected::{self, Many, Maybe, Once};
use crate::expected::Part;
use crate::moving::{ends, step};
use crate::terminal::terminal_of;
use aidl_base::OutOfMemory;
use aidl_syntax::Token;
use std::alloc::Global;

/// The place of the syntax fault of some tokens, as the number of tokens before it: None where a tree stands for the
/// tokens, and else how many of them, from the first on, some list with a tree can begin with. That may be all of
/// them. No token limit is asked (own). It may also answer that memory was wanted.
pub fn fault_place(alloc: Global, tokens: &[Token]) -> Result<Option<usize>, OutOfMemory>
    // None is answered only where a tree stands for the tokens, and a number only where it is the place.
    ensures place { IfOk result (λ place. MatchOption place
        (HasTree tokens.now) (IsFaultPlace tokens.now)) }

    // Where a tree stands, None is answered; and else the place, of which there is one.
    ensures only_tree { HasTree tokens.now → IfOk result (λ place. place ≡ None) }
    ensures only_place { (k : ℕ) → (HasTree tokens.now → ⊥)
        → IsFaultPlace tokens.now k → IfOk result (λ place. place ≡ Some k) }
{
    place(alloc, tokens)
}

/// A law of the definitions: whether tokens are viable, no offset of theirs decides.
pub fn law_offsets(first: &[Token], second: &[Token])
    ensures { map (λ t. t.kind) first.now ≡ map (λ t. t.kind) second.now
        → Viable first.now → Viable second.now }
{}

/// A law of the definitions: a tree stands for tokens, or none does and they have the place of a fault; and no tokens have two
/// places.
pub fn law_one_place(tokens: &[Token])
    ensures one { HasTree tokens.now ⊎ ((HasTree tokens.now → ⊥)
        × ((k : ℕ) × IsFaultPlace tokens.now k)) }
    ensures only { (j k : ℕ) → IsFaultPlace tokens.now j → IsFaultPlace tokens.now k → j ≡ k }
{}

// The place at which the tokens stop the stack of what is expected.
fn place(alloc: Global, tokens: &[Token]) -> Result<Option<usize>, OutOfMemory>
    ensures { IfOk result (λ place. place ≡ places.place_from 0 tokens.now places.whole) }
{
    let mut stack = whole(alloc)?;
    for (place, token) in tokens.iter().enumerate() {
        if !step(&mut stack, terminal_of(&token.kind))? {
            return Ok(Some(place));
        }
    }
    if ends(&stack) {
        Ok(None)
    } else {
        Ok(Some(tokens.len()))
    }
}

// The stack of what is expected of a whole file.
fn whole(alloc: Global) -> Result<Vec<Expected>, OutOfMemory>
    ensures { IfOk result (λ stack. reverse stack.items ≡ places.whole) }
{
    let mut stack = Vec::new(alloc);
    stack.push(Once(Part::Body))?;
    stack.push(Many(Part::Annotation))?;
    stack.push(Many(Part::Import))?;
    stack.push(Maybe(Part::Package))?;
    Ok(stack)
}
