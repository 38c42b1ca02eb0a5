//! What a command prints with its verdict, and how it ends early: by a refusal, a passed limit or want of memory.
ghost use Rattle.std.specs.Prelude.{◌≡◌, ◌++◌, false, OnErr};
ghost use Rattle.tool_frame.specs.Answer.{Answer, negative, limit_passed};
ghost use Rattle.tool_frame.specs.declared.printed.Early.TheVariants.{OutOfMemory as Lost};
ghost use Rattle.tool_frame.specs.Results.{EndsAs, Gives, IsGrown};

use crate::verdict::Verdict;
use aidl_base::{Limit, OutOfMemory};
use growing::GrowingText;
use std::alloc::Global;

/// A text to print, and the verdict that goes with it.
#[derive(Drop)]
pub struct Printed {
    pub text: String,
    pub verdict: Verdict,
}

/// Why a command ends before its last step.
#[derive(Drop)]
pub enum Early {
    /// A refusal, with what is printed.
    Answered(Printed),
    OutOfMemory,
}

impl From<OutOfMemory> for Early {
    ghost use Rattle.tool_frame.specs.declared.printed.Early.TheVariants.{OutOfMemory as Lost};

    ghost from_gives = { λ _ early. early ≡ Lost };

    fn from(_fault: OutOfMemory) -> Early {
        Early::OutOfMemory
    }
}

/// What is printed of a text that grew, with its verdict, where memory was there for each piece.
pub fn give(text: GrowingText, verdict: Verdict) -> Result<Printed, Early>
    ensures answer { (answer : Answer) → IsGrown text verdict answer → Gives result answer }
    ensures refused { OnErr result (text.is_whole ≡ false) }
{
    match text.into_string() {
        Ok(text) => Ok(Printed { text, verdict }),
        Err(_) => Err(Early::OutOfMemory),
    }
}

/// An early end with a text that grew, and its verdict, where memory was there for each piece.
pub fn end_as(text: GrowingText, verdict: Verdict) -> Early
    ensures answer { (answer : Answer) → IsGrown text verdict answer → EndsAs result answer }
    ensures refused { result ≡ Lost → text.is_whole ≡ false }
{
    match text.into_string() {
        Ok(text) => Early::Answered(Printed { text, verdict }),
        Err(_) => Early::OutOfMemory,
    }
}

/// One negative line: a word and what follows it.
pub fn refusal(alloc: Global, front: &str, rest: &str) -> Early
    ensures { EndsAs result (negative (front.now ++ rest.now)) }
{
    let mut text = GrowingText::new(alloc);
    text.push_str(front);
    text.push_str(rest);
    text.push_str("\n");
    end_as(text, Verdict::Negative)
}

/// The line for a limit that was passed.
pub fn limit_passed(alloc: Global, limit: Limit) -> Early
    ensures { EndsAs result (limit_passed limit.which) }
{
    let name = limit.which.name();
    let number = limit.which.number();
    let mut text = GrowingText::new(alloc);
    writeln!(text, "limit {name} {number}");
    end_as(text, Verdict::LimitPassed)
}
