//! Character literals and string literals.
ghost use Rattle.std.specs.Prelude.{◌≡◌, ◌<◌, ◌^◌, length, IfOk};
ghost use Rattle.aidl_lexer.specs.steps.Reading as read;

use crate::bytes::{begins_with, inside_len, is_inside};
use crate::fault::FaultKind;
use crate::fronts::Front;
use crate::words::text_of;
use aidl_base::OutOfMemory;
use aidl_syntax::TokenKind;
use std::alloc::Global;

// The character, of what follows its apostrophe.
#[tactic(auto, unfolding(crate::specs::steps::Reading::character_at))]
pub fn character_at(bytes: &[u8]) -> Front
    ensures { result ≡ read.character_at bytes.now }
{
    match bytes {
        [c, rest @ ..] => {
            if is_inside(b'\'', *c) && begins_with(rest, b'\'') {
                Front::Token(TokenKind::Character(u32::from(*c)), 3)
            } else {
                Front::Fault(FaultKind::OpenLiteral)
            }
        }
        [] => Front::Fault(FaultKind::OpenLiteral),
    }
}

// The string, of what follows its quote.
#[tactic(auto, unfolding(crate::specs::steps::Reading::string_at))]
pub fn string_at(alloc: Global, bytes: &[u8]) -> Result<Front, OutOfMemory>
    requires { length bytes.now < 2 ^ 32 }
    ensures { IfOk result (λ front. front ≡ read.string_at bytes.now) }
{
    let len = inside_len(bytes);
    if begins_with(&bytes[len..], b'"') {
        Ok(Front::Token(TokenKind::Str(text_of(alloc, &bytes[..len])?), len + 2))
    } else {
        Ok(Front::Fault(FaultKind::OpenLiteral))
    }
}
