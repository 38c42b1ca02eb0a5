//! Identifiers and reserved words.
ghost use Rattle.std.specs.Prelude.{◌≡◌, IfOk, take};
ghost use Rattle.std.specs.List.{prefix_len};
ghost use Rattle.std.specs.Str.{IsAscii};
ghost use Rattle.aidl_base.specs.Identifiers.{is_word_byte};
ghost use Rattle.aidl_lexer.specs.steps.Reading as read;

use crate::bytes::word_len;
use crate::fronts::Front;
use aidl_base::{OutOfMemory, Reserved, Text, reserved_of};
use aidl_syntax::TokenKind;
use std::alloc::Global;

// The identifier or the reserved word at the front.
#[tactic(auto, unfolding(crate::specs::steps::Reading::word_at))]
pub fn word_at(alloc: Global, bytes: &[u8]) -> Result<Front, OutOfMemory>
    ensures { IfOk result (λ front. front ≡ read.word_at bytes.now) }
{
    let text = word_of(bytes);
    by_reserved(alloc, reserved_of(text), text)
}

// The letters, digits and `_` at the front.
pub fn word_of(bytes: &[u8]) -> &[u8]
    ensures value { result.now ≡ take (prefix_len is_word_byte bytes.now) bytes.now }
    ensures ascii { IsAscii result.now }
{
    &bytes[..word_len(bytes)]
}

fn by_reserved(alloc: Global, word: Option<Reserved>, text: &[u8]) -> Result<Front, OutOfMemory>
    requires { IsAscii text.now }
    ensures { IfOk result (λ front. front ≡ read.by_reserved word text.now) }
{
    match word {
        Some(word) => Ok(Front::Token(TokenKind::Word(word), text.len())),
        None => Ok(Front::Token(TokenKind::Name(text_of(alloc, text)?), text.len())),
    }
}

// The text that ASCII bytes are. They are UTF-8, which is proved and not tested again.
pub fn text_of(alloc: Global, bytes: &[u8]) -> Result<Text, OutOfMemory>
    requires { IsAscii bytes.now }
    ensures { IfOk result (λ text. text ≡ bytes.now) }
{
    let text = unsafe { std::str::from_utf8_unchecked(bytes) };
    Text::from_str(alloc, text)
}
