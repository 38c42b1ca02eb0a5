//! Texts that grow piece by piece, and remember a want of memory.

ghost use Rattle.std.specs.Prelude.{◌≡◌, [], false, true, OnOk, OnErr, IfOk, IfSome, string_bytes};
ghost use Rattle.std.specs.Char.{encode_utf8};
ghost use Rattle.growing.specs.Grows.{Grows};

use aidl_base::OutOfMemory;
use std::alloc::Global;
use std::fmt::Display;

/// A text that grows piece by piece. Where memory is wanted for a piece it isn't whole any more, whatever is added then, and who
/// takes the text is told; so no piece has an error of its own.
pub struct GrowingText {
    /// What was added.
    pub text: String,
    /// Whether memory was there for each piece.
    pub is_whole: bool,
}

// By hand, so that one who drops it meets one call.
impl Drop for GrowingText {
    fn drop(self) {
        let GrowingText {
            text: _,
            is_whole: _,
        } = self;
    }
}

impl GrowingText {
    /// The empty text.
    pub fn new(alloc: Global) -> GrowingText
        ensures whole { result.is_whole ≡ true }
        ensures empty { string_bytes result.text ≡ [] }
    {
        GrowingText {
            text: String::new(alloc),
            is_whole: true,
        }
    }

    /// The empty text, with room for so many bytes where memory is there for it.
    pub fn with_room(alloc: Global, bytes: usize) -> GrowingText
        ensures empty { string_bytes result.text ≡ [] }
    {
        match String::with_capacity(alloc, bytes) {
            Ok(text) => GrowingText {
                text,
                is_whole: true,
            },
            Err(_) => GrowingText {
                text: String::new(alloc),
                is_whole: false,
            },
        }
    }

    /// Adds a text.
    pub fn push_str(&mut self, piece: &str)
        ensures { Grows self.old self.new piece.now }
    {
        if self.text.push_str(piece).is_err() {
            self.is_whole = false;
        }
    }

    /// Adds a character.
    pub fn push(&mut self, character: char)
        ensures { Grows self.old self.new (encode_utf8 character) }
    {
        if self.text.push(character).is_err() {
            self.is_whole = false;
        }
    }

    /// Adds what `write!` or `writeln!` is given.
    pub fn write_fmt<D: Display + Drop>(&mut self, pieces: D)
        ensures { IfSome (D.output pieces) (λ bytes. Grows self.old self.new bytes) }
    {
        if self.text.write_fmt(pieces).is_err() {
            self.is_whole = false;
        }
    }

    /// Memory was wanted for a piece.
    pub fn lose(&mut self)
        ensures { self.new.is_whole ≡ false }
    {
        self.is_whole = false;
    }

    /// The text, where memory was there for each piece.
    pub fn into_string(self) -> Result<String, OutOfMemory>
        ensures text { IfOk result (λ text. (self.is_whole ≡ true)
            × (string_bytes text ≡ string_bytes self.text)) }
        ensures refused { OnErr result (self.is_whole ≡ false) }
    {
        let GrowingText { text, is_whole } = self;
        if is_whole { Ok(text) } else { Err(OutOfMemory) }
    }
}
