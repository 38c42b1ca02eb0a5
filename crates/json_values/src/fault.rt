//! The faults of reading a JSON value: those that are reported, and those on the way.
ghost use Rattle.std.specs.Prelude.{◌≡◌, [], String, string_bytes};
ghost use Rattle.std.specs.Str.{encode_utf8_all};
ghost use Rattle.std.specs.declared.alloc.Global.{Global};
ghost use Rattle.json_values.specs.declared.fault.Fault.TheVariants.{Refused};
ghost use Rattle.json_values.specs.Gives.{refusal_of};
ghost use Rattle.json_values.specs.steps.Gives.{refusal_in};

use aidl_base::{OutOfMemory, Text};
use std::alloc::{AllocError, AllocFailed, Global};

/// Why a JSON value is no value of a type. `at` is the JSON pointer of the place, in which a key's `~` is written `~0`
/// and its `/` is written `~1`.
#[derive(Drop)]
pub enum JsonFault {
    /// The JSON value is of another kind than the type's, or null where the type isn't nullable, a number that isn't
    /// whole, or a union's object that hasn't exactly one key.
    WrongShape { at: Text },
    /// A whole number is outside the type's range.
    OutOfRange { at: Text },
    /// A key names no field. The pointer ends with the key.
    UnknownKey { at: Text },
    /// A string names no enumerator.
    UnknownEnumerator { at: Text },
    /// An array or an object, or a field's default, would be a composite at depth 65.
    TooDeep { at: Text },
    OutOfMemory,
}

/// Why a part was refused.
#[derive(Clone, Copy)]
pub enum Reason {
    WrongShape,
    OutOfRange,
    UnknownKey,
    UnknownEnumerator,
    TooDeep,
}

/// Why a part of a JSON value is refused, and the place in that part as a JSON pointer; or want of memory.
#[derive(Drop)]
pub enum Fault<R> {
    Refused(R, String),
    OutOfMemory,
}

impl<R: Drop> From<OutOfMemory> for Fault<R> {
    ghost use Rattle.json_values.specs.declared.fault.Fault.TheVariants.{OutOfMemory as Lost};

    ghost from_gives = { λ _ fault. fault ≡ Lost };

    fn from(_fault: OutOfMemory) -> Fault<R> {
        Fault::OutOfMemory
    }
}

impl<R: Drop> From<AllocError> for Fault<R> {
    ghost use Rattle.json_values.specs.declared.fault.Fault.TheVariants.{OutOfMemory as Lost};

    ghost from_gives = { λ _ fault. fault ≡ Lost };

    fn from(_fault: AllocError) -> Fault<R> {
        Fault::OutOfMemory
    }
}

impl<R: Drop, T: Drop> From<AllocFailed<T>> for Fault<R> {
    ghost use Rattle.json_values.specs.declared.fault.Fault.TheVariants.{OutOfMemory as Lost};

    ghost from_gives = { λ _ fault. fault ≡ Lost };

    fn from(_fault: AllocFailed<T>) -> Fault<R> {
        Fault::OutOfMemory
    }
}

/// A fault, as it is reported.
pub fn reported(fault: Fault<Reason>) -> JsonFault
    ensures { refusal_of result ≡ refusal_in fault }
{
    match fault {
        Fault::Refused(reason, at) => {
            let at = place(at);
            match reason {
                Reason::WrongShape => JsonFault::WrongShape { at },
                Reason::OutOfRange => JsonFault::OutOfRange { at },
                Reason::UnknownKey => JsonFault::UnknownKey { at },
                Reason::UnknownEnumerator => JsonFault::UnknownEnumerator { at },
                Reason::TooDeep => JsonFault::TooDeep { at },
            }
        }
        Fault::OutOfMemory => JsonFault::OutOfMemory,
    }
}

fn place(at: String) -> Text
    ensures { encode_utf8_all result ≡ string_bytes at }
{
    Text::from_string(at)
}

/// A refusal of the value itself.
pub fn refused(alloc: Global, reason: Reason) -> Fault<Reason>
    ensures { (at : String Global) × (string_bytes at ≡ []) × (result ≡ Refused reason at) }
{
    Fault::Refused(reason, String::new(alloc))
}
