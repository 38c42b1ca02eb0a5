//! Steps that may end a command early, where a limit is passed.
ghost use Rattle.tool_frame.specs.Refusals as step;
ghost use Rattle.tool_frame.specs.Results.{Finds, held};

use crate::loading::within_limit;
use crate::printed::{Early, limit_passed};
use aidl_base::{Limit, LimitName};
use std::alloc::Global;

/// A text that was loaded; else the line of the limit that it passes.
pub fn text_of(alloc: Global, found: Result<Vec<u8>, Limit>) -> Result<Vec<u8>, Early>
    ensures { Finds (λ v. v.items) result (held found) }
{
    match found {
        Ok(text) => Ok(text),
        Err(limit) => Err(limit_passed(alloc, limit)),
    }
}

/// Bytes that don't pass a limit; else its line.
pub fn bytes_within(alloc: Global, which: LimitName, bytes: Vec<u8>) -> Result<Vec<u8>, Early>
    ensures { Finds (λ v. v.items) result (step.within which bytes.items) }
{
    text_of(alloc, within_limit(which, bytes))
}
