//! The front of some bytes: a piece of a gap, a token or a fault.
ghost use Rattle.std.specs.Prelude.{◌≡◌, ◌<◌, ◌^◌, length, IfOk};
ghost use Rattle.aidl_lexer.specs.steps.Reading as read;

use crate::bytes::is_blank;
use crate::comments::slash_at;
use crate::fault::FaultKind;
use crate::literals::{character_at, string_at};
use crate::numbers::number_at;
use crate::symbols::symbol_at;
use crate::words::word_at;
use aidl_base::{OutOfMemory, is_letter};
use aidl_syntax::TokenKind;
use std::alloc::Global;

// What stands at the front of some bytes: a piece of a gap or a token, and of how many bytes; or a fault.
#[derive(Drop)]
pub enum Front {
    Gap(usize),
    Token(TokenKind, usize),
    Fault(FaultKind),
}

// What stands at the front of bytes, of which there is one.
#[tactic(auto, using(crate::proofs::Moving::moves))]
pub fn front_of(alloc: Global, bytes: &[u8]) -> Result<Front, OutOfMemory>
    requires some { 0 < length bytes.now }
    requires few { length bytes.now < 2 ^ 32 }
    ensures value { IfOk result (λ front. front ≡ read.front_of bytes.now) }
    ensures moves { IfOk result (λ front. read.Moves front (length bytes.now)) }
{
    let front = any_front(alloc, bytes)?;
    Ok(front)
}

// One arm for each form, by the first byte.
#[tactic(auto, unfolding(crate::specs::steps::Reading::front_of))]
fn any_front(alloc: Global, bytes: &[u8]) -> Result<Front, OutOfMemory>
    requires some { 0 < length bytes.now }
    requires few { length bytes.now < 2 ^ 32 }
    ensures { IfOk result (λ front. front ≡ read.front_of bytes.now) }
{
    match bytes {
        [] => unreachable!(),
        [b, rest @ ..] => {
            if is_blank(*b) {
                Ok(Front::Gap(1))
            } else if is_letter(*b) {
                word_at(alloc, bytes)
            } else if b.is_ascii_digit() {
                Ok(number_at(bytes))
            } else if *b == b'\'' {
                Ok(character_at(rest))
            } else if *b == b'"' {
                string_at(alloc, rest)
            } else if *b == b'/' {
                Ok(slash_at(rest))
            } else {
                Ok(symbol_at(bytes))
            }
        }
    }
}
