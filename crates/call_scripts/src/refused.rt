//! Refusals of a line of a calls file: their names, their places and their JSON pointers.
ghost use Rattle.std.specs.Prelude.{◌≡◌, ◌++◌, decimal, IfOk, string_bytes};
ghost use Rattle.std.specs.Str.{encode_utf8_all};
ghost use Rattle.json_values.specs.Gives as json;
ghost use Rattle.call_scripts.specs.Refusal.{printed_name};
ghost use Rattle.call_scripts.specs.Gives.{IsPlaced, IsRefusal, place_bytes};

use aidl_base::Text;
use json_values::{Fault, JsonFault};
use std::alloc::{AllocError, Global};

/// Why a line of a calls file is refused.
#[derive(Clone, Copy, PartialEq, Eq)]
pub enum RefusedName {
    /// It isn't UTF-8, or `serde_json` reads no value of it.
    NotJson,
    /// A value is of another kind than is wanted, or an array has a wrong count; `exception` stands beside another key; or a oneway method
    /// has an `answer`.
    WrongShape,
    /// A key is none of those that may stand there. The place ends with the key.
    UnknownKey,
    /// `call` names no method of the client.
    UnknownMethod,
    /// A number is outside its range, or the lengths of `out` arrays add up to more than 65,536.
    OutOfRange,
    /// A string names no enumerator.
    UnknownEnumerator,
    /// A value would have a composite at depth 65.
    TooDeep,
    /// The request or the reply is longer than 1,048,576 bytes.
    TooLarge,
}

impl RefusedName {
    /// The name as it is printed.
    pub fn name(self) -> &'static str
        ensures { result.now ≡ printed_name self }
    {
        match self {
            RefusedName::NotJson => "NotJson",
            RefusedName::WrongShape => "WrongShape",
            RefusedName::UnknownKey => "UnknownKey",
            RefusedName::UnknownMethod => "UnknownMethod",
            RefusedName::OutOfRange => "OutOfRange",
            RefusedName::UnknownEnumerator => "UnknownEnumerator",
            RefusedName::TooDeep => "TooDeep",
            RefusedName::TooLarge => "TooLarge",
        }
    }
}

/// A refusal. `at` is a JSON pointer from the whole line, in which a key's `~` is written `~0` and its `/` is written `~1`.
#[derive(Drop)]
pub struct Refused {
    pub name: RefusedName,
    pub at: Text,
}

/// A place of a line. `Entry` and `Out` have a 0-based position.
#[derive(Clone, Copy)]
pub enum Place {
    Line,
    Call,
    Args,
    Entry(usize),
    Answer,
    Exception,
    Return,
    Outs,
    Out(usize),
}

/// A refusal at a place.
pub fn refusal(alloc: Global, name: RefusedName, place: Place) -> Fault<RefusedName>
    ensures { IsRefusal name (place_bytes place) result }
{
    match pointer(alloc, place) {
        Ok(at) => Fault::Refused(name, at),
        Err(_) => Fault::OutOfMemory,
    }
}

fn pointer(alloc: Global, place: Place) -> Result<String, AllocError>
    ensures { IfOk result (λ s. string_bytes s ≡ place_bytes place) }
{
    match place {
        Place::Line => String::from_str(alloc, ""),
        Place::Call => String::from_str(alloc, "/call"),
        Place::Args => String::from_str(alloc, "/args"),
        Place::Entry(k) => numbered(alloc, "/args/", k),
        Place::Answer => String::from_str(alloc, "/answer"),
        Place::Exception => String::from_str(alloc, "/answer/exception"),
        Place::Return => String::from_str(alloc, "/answer/return"),
        Place::Outs => String::from_str(alloc, "/answer/out"),
        Place::Out(k) => numbered(alloc, "/answer/out/", k),
    }
}

fn numbered(alloc: Global, front: &str, k: usize) -> Result<String, AllocError>
    ensures { IfOk result (λ s. string_bytes s ≡ front.now ++ decimal k) }
{
    let number = k.to_string(alloc)?;
    let mut text = String::from_str(alloc, front)?;
    text.push_str(number.as_str())?;
    Ok(text)
}

// The refusal of the JSON value at a place, as one of the line.
pub fn placed(alloc: Global, place: Place, fault: JsonFault) -> Fault<RefusedName>
    ensures { IsPlaced (place_bytes place) (json.refusal_of fault) result }
{
    match fault {
        JsonFault::WrongShape { at } => below(alloc, RefusedName::WrongShape, place, at.as_str()),
        JsonFault::OutOfRange { at } => below(alloc, RefusedName::OutOfRange, place, at.as_str()),
        JsonFault::UnknownKey { at } => below(alloc, RefusedName::UnknownKey, place, at.as_str()),
        JsonFault::UnknownEnumerator { at } => {
            below(alloc, RefusedName::UnknownEnumerator, place, at.as_str())
        }
        JsonFault::TooDeep { at } => below(alloc, RefusedName::TooDeep, place, at.as_str()),
        JsonFault::OutOfMemory => Fault::OutOfMemory,
    }
}

// A refusal below a place.
pub fn below(alloc: Global, name: RefusedName, place: Place, at: &str) -> Fault<RefusedName>
    ensures { IsRefusal name (place_bytes place ++ at.now) result }
{
    match joined(alloc, place, at) {
        Ok(at) => Fault::Refused(name, at),
        Err(_) => Fault::OutOfMemory,
    }
}

fn joined(alloc: Global, place: Place, at: &str) -> Result<String, AllocError>
    ensures { IfOk result (λ s. string_bytes s ≡ place_bytes place ++ at.now) }
{
    let mut text = pointer(alloc, place)?;
    text.push_str(at)?;
    Ok(text)
}
