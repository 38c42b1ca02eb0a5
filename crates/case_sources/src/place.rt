//! The place of a syntax fault as text.

use aidl_base::OutOfMemory;
use aidl_syntax::Token;
use parse_places::fault_place;
use std::alloc::Global;

/// The offset of the first token with which those before it can't go on to a file, `the end` where only more tokens could, or
/// that there is a tree.
pub fn shown_place(alloc: Global, tokens: &[Token]) -> Result<String, OutOfMemory> {
    match fault_place(alloc, tokens)? {
        None => Ok(String::from_str(alloc, "a tree")?),
        Some(place) => match tokens.get(place) {
            Some(token) => Ok(format!(in alloc; "syntax at {}", token.offset)?),
            None => Ok(String::from_str(alloc, "syntax at the end")?),
        },
    }
}
