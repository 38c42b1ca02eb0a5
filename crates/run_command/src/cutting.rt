//! The lines of a calls file, cut in place.
ghost use Rattle.std.specs.Prelude.{◌≡◌, ◌≢◌, ◌<◌, ◌==◌, ◌∷◌, [], ◌≤◌, length, IfOk, IfSome};
ghost use Rattle.std.specs.List.{position};
ghost use Rattle.run_command.specs.CallLines as lines;
ghost use Rattle.tool_frame.specs.Results.{Finds, held};

use aidl_base::{Limit, LimitName};
use memchr::memchr;
use std::alloc::Global;
use tool_frame::{Early, limit_passed, text_of};

/// A line of a calls file or of a trace: its number, from 1 on, and its bytes without the newline.
#[derive(Clone, Copy)]
pub struct Line<'a> {
    pub number: usize,
    pub bytes: &'a [u8],
}

/// The first line of a text that isn't empty, without its newline, and what stands behind it.
pub fn cut(text: &[u8]) -> (&[u8], &[u8])
    requires { text.now ≢ [] }
    ensures lines { lines.lines_of text.now ≡ result.0.now ∷ lines.lines_of result.1.now }
    ensures less { length result.1.now < length text.now }
{
    match newline_at(text) {
        Some(end) => (&text[..end], &text[end + 1..]),
        None => (text, &text[text.len()..]),
    }
}

// Where the first newline stands.
fn newline_at(text: &[u8]) -> Option<usize>
    ensures first { result ≡ position (λ b. b == 10) text.now }
    ensures within { IfSome result (λ end. end < length text.now) }
{
    memchr(b'\n', text)
}

/// The text of a file of lines that was loaded; else the line of the limit that it passes, on its bytes or on its lines.
pub fn lines_loaded(alloc: Global, file: Result<Vec<u8>, Limit>) -> Result<Vec<u8>, Early>
    ensures { Finds (λ v. v.items) result (lines.lines_held (held file)) }
{
    let text = text_of(alloc, file)?;
    lines_within(alloc, text)
}

/// A text of at most 65,536 lines; else the line of the limit `lines`.
pub fn lines_within(alloc: Global, text: Vec<u8>) -> Result<Vec<u8>, Early>
    ensures text { Finds (λ v. v.items) result (lines.within_lines text.items) }
    ensures few { IfOk result (λ v. length (lines.lines_of v.items) ≤ 65536) }
{
    let which = LimitName::Lines;
    if count(text.as_slice()) > which.number() as usize {
        return Err(limit_passed(alloc, Limit { which }));
    }
    Ok(text)
}

// The number of lines.
fn count(text: &[u8]) -> usize
    ensures { result ≡ length (lines.lines_of text.now) }
{
    let mut number = 0;
    let mut rest = text;
    while !rest.is_empty() {
        let (_, after) = cut(rest);
        rest = after;
        number += 1;
    }
    number
}
