//! What begins with `/`: comments, and the symbol `/`.
ghost use Rattle.std.specs.Prelude.{◌≡◌, ◌≤◌, ◌<◌, ◌+◌, ◌^◌, length, IfSome};
ghost use Rattle.aidl_lexer.specs.steps.Reading as read;

use crate::bytes::{begins_with, line_len};
use crate::fault::FaultKind;
use crate::fronts::Front;
use aidl_syntax::{Symbol, TokenKind};

// The comment or the symbol `/`, of what follows the `/`: no symbol of two bytes begins so.
#[tactic(auto, unfolding(crate::specs::steps::Reading::slash_at))]
pub fn slash_at(bytes: &[u8]) -> Front
    requires { length bytes.now < 2 ^ 32 }
    ensures { result ≡ read.slash_at bytes.now }
{
    if begins_with(bytes, b'/') {
        Front::Gap(2 + line_len(&bytes[1..]))
    } else if begins_with(bytes, b'*') {
        by_close(close_len(&bytes[1..]))
    } else {
        Front::Token(TokenKind::Mark(Symbol::Slash), 1)
    }
}

fn by_close(close: Option<usize>) -> Front
    requires { IfSome close (λ n. n < 2 ^ 40) }
    ensures { result ≡ read.by_close close }
{
    match close {
        Some(len) => Front::Gap(len + 2),
        None => Front::Fault(FaultKind::OpenComment),
    }
}

// The length up to and with the first `*/`.
#[tactic(auto, using(crate::proofs::Classes::up_by_zero, crate::proofs::Classes::up_by_step))]
fn close_len(bytes: &[u8]) -> Option<usize>
    requires { length bytes.now < 2 ^ 32 }
    ensures value { result ≡ read.close_len bytes.now }
    ensures within { IfSome result (λ n. n ≤ length bytes.now + 2) }
{
    let mut len = 0;
    let mut rest = bytes;
    while let [b, after @ ..] = rest {
        if *b == b'*' && begins_with(after, b'/') {
            return Some(len + 2);
        }
        len += 1;
        rest = after;
    }
    None
}
