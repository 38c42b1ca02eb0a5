//! The JSON pointer of a fault, lengthened step by step from the inside out.
ghost use Rattle.std.specs.Prelude.{◌≡◌, ◌∷◌, ◌++◌, decimal, IfOk, OnOk, string_bytes};
ghost use Rattle.std.specs.Str.{encode_utf8_all};
ghost use Rattle.json_values.specs.Refusal.{escaped, escaped_character};
ghost use Rattle.json_values.specs.steps.Gives.{IsBehind, IsBelow};

use crate::fault::{Fault, Reason};
use std::alloc::{AllocError, Global};

/// The fault of the element at an index as one of the whole array.
pub fn below_index(alloc: Global, index: usize, fault: Fault<Reason>) -> Fault<Reason>
    ensures { IsBelow (decimal index) fault result }
{
    match index_step(alloc, index) {
        Ok(step) => below(step, fault),
        Err(_) => Fault::OutOfMemory,
    }
}

/// The fault of the value at a key as one of the whole object.
pub fn below_key(alloc: Global, key: &str, fault: Fault<Reason>) -> Fault<Reason>
    ensures { IsBelow (escaped key.now) fault result }
{
    match key_step(alloc, key) {
        Ok(step) => below(step, fault),
        Err(_) => Fault::OutOfMemory,
    }
}

// The step of a pointer to the element at an index.
fn index_step(alloc: Global, index: usize) -> Result<String, AllocError>
    ensures { IfOk result (λ s. string_bytes s ≡ 47 ∷ decimal index) }
{
    let number = index.to_string(alloc)?;
    let mut text = String::from_str(alloc, "/")?;
    text.push_str(number.as_str())?;
    Ok(text)
}

/// The step of a JSON pointer to the value at a key: a slash and the key, in which `~` is written `~0` and `/` is written
/// `~1` (RFC 6901, section 3).
pub fn key_step(alloc: Global, key: &str) -> Result<String, AllocError>
    ensures { IfOk result (λ s. string_bytes s ≡ 47 ∷ escaped key.now) }
{
    let mut text = String::from_str(alloc, "/")?;
    for c in key.chars() {
        push_escaped(&mut text, c)?;
    }
    Ok(text)
}

fn push_escaped(text: &mut String, c: char) -> Result<(), AllocError>
    ensures { OnOk result (string_bytes text.new
        ≡ string_bytes text.old ++ encode_utf8_all (escaped_character c)) }
{
    match c {
        '~' => text.push_str("~0"),
        '/' => text.push_str("~1"),
        _ => text.push(c),
    }
}

// The fault below a step.
fn below(step: String, fault: Fault<Reason>) -> Fault<Reason>
    ensures { IsBehind (string_bytes step) fault result }
{
    let Fault::Refused(reason, at) = fault else {
        return Fault::OutOfMemory;
    };
    let mut text = step;
    match text.push_str(at.as_str()) {
        Ok(()) => Fault::Refused(reason, text),
        Err(_) => Fault::OutOfMemory,
    }
}
