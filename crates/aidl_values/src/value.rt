//! Values, and the answers of handlers.
ghost use Rattle.std.specs.Prelude.{◌≡◌, IfOk};
ghost use Rattle.aidl_values.specs.AnswerData.{answer_of};
ghost use Rattle.aidl_values.specs.View.{view};

use crate::copying::{copy, copy_result, copy_values};
use crate::places::Places;
use aidl_base::{OutOfMemory, Row, Text};
use std::alloc::Global;
use std::rc::Rc;

/// A value of a type.
#[cycle(value)]
#[derive(Drop)]
pub enum Value {
    Null,
    Truth(bool),
    /// of byte, char, int, long or an enum
    Number(i64),
    Text(Text),
    /// of an array or a `List`
    Seq(Elements),
    /// of a parcelable, one value per field in order
    Rec(Fields),
    /// of a union: the 0-based position of the field, and its value
    Alt(u32, Box<Value>),
}

/// The elements of a sequence, as values or side by side. Truth values and numbers may be kept in either form: they are the same data.
#[cycle(value)]
#[derive(Drop)]
pub enum Elements {
    Values(Row<Value>),
    /// of boolean
    Truths(Row<bool>),
    /// of byte, signed: the 8 bits that each has in a parcel
    Bytes(Row<u8>),
    /// of char: the numbers of code units
    Chars(Row<u16>),
    /// of int, or an enum
    Ints(Row<i32>),
    /// of long, or an enum
    Longs(Row<i64>),
}

/// The values of a record's fields: all of them, or those that were given with the defaults of all.
#[cycle(value)]
#[derive(Drop)]
pub enum Fields {
    Whole(Row<Value>),
    Short(Box<ShortFields>),
}

/// Values that were given, with the places of their fields, and the defaults of all fields, which records can share.
#[cycle(value)]
#[derive(Drop)]
pub struct ShortFields {
    pub(crate) places: Places,
    pub(crate) given: Row<Value>,
    pub(crate) defaults: Rc<Row<Value>>,
}

/// An element as it is lent to who reads it.
#[derive(Drop)]
pub enum Element<'a> {
    Value(&'a Value),
    Truth(bool),
    Number(i64),
}

impl Value {
    /// A value equal to this one.
    pub fn try_clone(&self, alloc: Global) -> Result<Value, OutOfMemory>
        ensures { IfOk result (λ v. view v ≡ view self.now) }
    {
        copy(alloc, self)
    }
}

/// What a handler answers. Of an answer that fits its method `error` is 0 unless `code` is -8, the service specific exception.
#[derive(Drop)]
pub enum Answer {
    Returned {
        result: Option<Value>,
        outs: Row<Value>,
    },
    Exception {
        code: i32,
        message: Text,
        error: i32,
    },
}

impl Answer {
    /// An answer equal to this one.
    pub fn try_clone(&self, alloc: Global) -> Result<Answer, OutOfMemory>
        ensures { IfOk result (λ a. answer_of a ≡ answer_of self.now) }
    {
        match self {
            Answer::Returned { result, outs } => {
                let result = copy_result(alloc, result)?;
                let outs = copy_values(alloc, outs.as_slice())?;
                Ok(Answer::Returned { result, outs })
            }
            Answer::Exception {
                code,
                message,
                error,
            } => {
                let message = message.try_clone(alloc)?;
                Ok(Answer::Exception {
                    code: *code,
                    message,
                    error: *error,
                })
            }
        }
    }
}
