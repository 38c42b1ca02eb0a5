//! The lexer: the tokens of a whole file, or its first fault.
ghost use Rattle.std.specs.Prelude.{◌≡◌, ◌+◌, ◌^◌, drop, ◌≤◌, ◌<◌, ℕ, List, length, IfOk, IfErr, Ok, Err};
ghost use Rattle.aidl_syntax.specs.declared.token.Token.{Token};
ghost use Rattle.aidl_syntax.specs.Tokens.{Tokens};
ghost use Rattle.aidl_syntax.specs.Faults as faults;
ghost use Rattle.aidl_lexer.specs.steps.Reading.{lex_of, with_front};
ghost use Rattle.aidl_lexer.specs.Gives.{Gives, IsFault, HasFault};

use crate::bytes::after;
use crate::fault::LexFault;
use crate::fronts::{Front, front_of};
use aidl_syntax::Token;
use std::alloc::Global;

/// The tokens of a file of at most 262,144 bytes, each with the offset of its first byte; or the first fault, with the
/// offset of the first byte at which no blank, comment or token can be taken. Blanks and comments are no tokens, and a
/// comment may hold any bytes. It may also answer that memory was wanted.
pub fn lex(alloc: Global, bytes: &[u8]) -> Result<Vec<Token>, LexFault>
    requires { length bytes.now ≤ 262144 }

    // What is answered is the list of the bytes' tokens; and if there is one, it is answered.
    ensures tokens { IfOk result (λ tokens. Tokens bytes.now tokens.items) }
    ensures only_tokens { (tokens : List Token)
        → Tokens bytes.now tokens → Gives result (Ok tokens) }

    // What is answered is the bytes' fault; and if there is one, it is answered.
    ensures fault { IfErr result (HasFault bytes.now) }
    ensures only_fault { (number offset : ℕ) → faults.LexFault bytes.now number offset
        → Gives result (Err (number, offset)) }
{
    tokens_of(alloc, bytes)
}

fn tokens_of(alloc: Global, bytes: &[u8]) -> Result<Vec<Token>, LexFault>
    requires { length bytes.now ≤ 262144 }
    ensures { Gives result (lex_of 0 0 bytes.now) }
{
    let mut out = Vec::new(alloc);
    let mut rest = bytes;
    let mut offset: u32 = 0;
    while !rest.is_empty() {
        let len = step(alloc, &mut out, offset, rest)?;
        offset += len as u32;
        rest = after(rest, len);
    }
    Ok(out)
}

// Reads a piece of a gap or a token, and answers its length.
#[tactic(auto, using(crate::proofs::Loop::at_gap, crate::proofs::Loop::at_token, crate::proofs::Loop::at_fault, crate::proofs::Loop::with_onto))]
fn step(alloc: Global, out: &mut Vec<Token>, offset: u32, rest: &[u8]) -> Result<usize, LexFault>
    requires some { 0 < length rest.now }
    requires few { length rest.now < 2 ^ 32 }
    ensures within { IfOk result (λ n. (0 < n) × (n ≤ length rest.now)) }

    // What was read, and then what is still read, stays the same.
    ensures read { IfOk result (λ n. with_front out.new.items (lex_of 0
        (offset + n) (drop n rest.now)) ≡ with_front out.old.items (lex_of 0 offset rest.now)) }
    ensures fault { IfErr result (λ e. IsFault e (lex_of 0 offset rest.now)) }
{
    match front_of(alloc, rest)? {
        Front::Gap(n) => Ok(n),
        Front::Token(kind, n) => {
            out.push(Token { kind, offset })?;
            Ok(n)
        }
        Front::Fault(kind) => Err(kind.at(offset)),
    }
}
