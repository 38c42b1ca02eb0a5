//! Operands: the values that expressions have before a type is wanted.
ghost use Rattle.std.specs.Prelude.{◌≡◌, IfOk};
ghost use Rattle.const_values.specs.Seen.{words_of};

use crate::width::Width;
use aidl_base::{OutOfMemory, Text};
use std::alloc::Global;

/// What an expression is, before a type is wanted of it. A character is its ASCII code.
#[derive(Drop)]
pub enum Operand<'a> {
    Truth(bool),
    Number { width: Width, value: i64 },
    Character(u32),
    Text(Words<'a>),
}

/// A text. It is borrowed from a literal or from a constant until `+` joins it or a wanted type takes it.
#[derive(Drop)]
pub enum Words<'a> {
    Borrowed(&'a Text),
    Joined(Text),
}

impl<'a> Words<'a> {
    /// The text.
    pub fn as_text(&self) -> &Text
        ensures { result.now ≡ words_of self.now }
    {
        match self {
            Words::Borrowed(text) => text,
            Words::Joined(text) => text,
        }
    }

    /// The text. A borrowed one is copied.
    pub fn into_text(self, alloc: Global) -> Result<Text, OutOfMemory>
        ensures { IfOk result (λ text. text ≡ words_of self.entry) }
    {
        match self {
            Words::Borrowed(text) => text.try_clone(alloc),
            Words::Joined(text) => Ok(text),
        }
    }
}
