//! The steps of the automaton: how its stack changes by a terminal, and when it may end.
ghost use Rattle.std.specs.Prelude.{◌≡◌, ◌++◌, IfOk, reverse};
ghost use Rattle.parse_places.specs.steps.Moves as moves;
ghost use Rattle.parse_places.specs.steps.Seen.{seen, gone_on, Went, and_last, of_option};

use crate::expected::Expected::{
    self, Commas, CommasTrailing, Many, Maybe, MaybeListed, MaybeTrailing, Once, Token,
};
use crate::rows::row;
use crate::terminal::Terminal;
use aidl_base::OutOfMemory;

// Moves the stack on by a terminal, where it goes on with it.
pub fn step(stack: &mut Vec<Expected>, terminal: Terminal) -> Result<bool, OutOfMemory>
    ensures { IfOk result (λ on. gone_on on stack.new.items
        ≡ moves.step (reverse stack.old.items) terminal) }
{
    while let Some(expected) = stack.pop() {
        if moved(stack, expected, terminal)? {
            return Ok(true);
        }
        if !skips(expected) {
            return Ok(false);
        }
    }
    Ok(false)
}

// Puts on the stack what is expected behind the terminal, where what was expected begins with it.
#[tactic(auto, unfolding(crate::specs::steps::Moves::moves, crate::specs::steps::Moves::same_terminal))]
fn moved(
    stack: &mut Vec<Expected>,
    expected: Expected,
    terminal: Terminal,
) -> Result<bool, OutOfMemory>
    ensures { IfOk result (λ on. Went on
        (moves.moves expected terminal) stack.old.items stack.new.items) }
{
    match expected {
        Token(wanted) => Ok(wanted == terminal),
        Once(part) => put(stack, None, row(part, terminal)),
        Maybe(part) => put(stack, None, row(part, terminal)),
        Many(part) => put(stack, Some(expected), row(part, terminal)),
        Commas(part) => put_behind_comma(stack, Some(expected), Once(part), terminal),
        MaybeListed(part) => put(stack, Some(Commas(part)), row(part, terminal)),
        CommasTrailing(part) => put_behind_comma(stack, None, MaybeTrailing(part), terminal),
        MaybeTrailing(part) => put(stack, Some(CommasTrailing(part)), row(part, terminal)),
    }
}

// Puts a row on the stack, where there is one, with one thing more behind it.
fn put(
    stack: &mut Vec<Expected>,
    last: Option<Expected>,
    row: Option<&[Expected]>,
) -> Result<bool, OutOfMemory>
    ensures { IfOk result (λ on. Went on
        (and_last (seen row.entry) last) stack.old.items stack.new.items) }
{
    match row {
        Some(list) => {
            put_last(stack, last)?;
            put_all(stack, list)?;
            Ok(true)
        }
        None => Ok(false),
    }
}

// Puts one thing on the stack where the terminal is a comma, with one more behind it.
#[tactic(auto, unfolding(crate::specs::steps::Moves::same_terminal))]
fn put_behind_comma(
    stack: &mut Vec<Expected>,
    last: Option<Expected>,
    next: Expected,
    terminal: Terminal,
) -> Result<bool, OutOfMemory>
    ensures { IfOk result (λ on. Went on
        (and_last (moves.behind_comma next terminal) last) stack.old.items stack.new.items) }
{
    if terminal == Terminal::Comma {
        put_last(stack, last)?;
        stack.push(next)?;
        Ok(true)
    } else {
        Ok(false)
    }
}

fn put_last(stack: &mut Vec<Expected>, last: Option<Expected>) -> Result<(), OutOfMemory>
    ensures { IfOk result (λ u. stack.new.items ≡ stack.old.items ++ of_option last) }
{
    if let Some(expected) = last {
        stack.push(expected)?;
    }
    Ok(())
}

// Puts a list on the stack, its first on top.
fn put_all(stack: &mut Vec<Expected>, list: &[Expected]) -> Result<(), OutOfMemory>
    ensures { IfOk result (λ u. reverse stack.new.items ≡ list.now ++ reverse stack.old.items) }
{
    for expected in list.iter().copied().rev() {
        stack.push(expected)?;
    }
    Ok(())
}

#[tactic(auto, unfolding(crate::specs::steps::Moves::skips))]
fn skips(expected: Expected) -> bool
    ensures { result ≡ moves.skips expected }
{
    match expected {
        Token(_) => false,
        Once(_) => false,
        Maybe(_) => true,
        Many(_) => true,
        Commas(_) => true,
        MaybeListed(_) => true,
        CommasTrailing(_) => true,
        MaybeTrailing(_) => true,
    }
}

// Whether all that is expected may be left out.
#[tactic(auto, unfolding(crate::specs::steps::Moves::ends))]
pub fn ends(stack: &[Expected]) -> bool
    ensures { result ≡ moves.ends stack.now }
{
    stack.iter().all(|expected| skips(*expected))
}
