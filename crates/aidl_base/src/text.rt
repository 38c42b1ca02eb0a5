//! Texts: UTF-8 that contracts see as Unicode scalars.
ghost use Rattle.std.specs.Prelude.{◌≡◌, string_bytes, length, IfOk, true, []};
ghost use Rattle.std.specs.Str.{chars, all_scalars, encode_utf8_all};

use crate::OutOfMemory;
use crate::kept::Kept;
use arrayvec::ArrayString;
use std::alloc::Global;
use std::fmt;
use std::marker::Model;

/// A text, which contracts see as the list of its Unicode scalars. One of at most 16 bytes in UTF-8 takes no memory of its own.
pub struct Text {
    kept: Kept,
}

// By hand, so that one who drops a text meets one call and not both ways to keep it.
impl Drop for Text {
    fn drop(self) {
        let Text { kept: _ } = self;
    }
}

impl Model for Text {
    ghost use Rattle.std.specs.Prelude.{List, ℕ};
    ghost use Rattle.std.specs.Str.{chars};
    ghost use Rattle.aidl_base.specs.Kept.{bytes_of};

    ghost Value = { List ℕ };

    ghost view = { λ it. chars (bytes_of it.kept) };
}

impl Text {
    /// The text of a string.
    pub fn from_string(text: String) -> Text
        ensures { result ≡ chars (string_bytes text) }
    {
        let kept = match ArrayString::from(text.as_str()).ok() {
            Some(short) => Kept::Short(short),
            None => Kept::Long(text),
        };
        Text { kept }
    }

    /// The text that is read. It takes no memory where it has at most 16 bytes.
    pub fn from_str(alloc: Global, text: &str) -> Result<Text, OutOfMemory>
        ensures { IfOk result (λ made. made ≡ chars text.now) }
    {
        let kept = Kept::from_str(alloc, text)?;
        Ok(Text { kept })
    }

    /// The text in UTF-8.
    pub fn as_str(&self) -> &str
        ensures value { self.now ≡ chars result.now }
        ensures scalars { all_scalars self.now ≡ true }
        ensures bytes { result.now ≡ encode_utf8_all self.now }
    {
        self.kept.as_str()
    }

    /// The number of its Unicode scalars.
    pub fn char_count(&self) -> usize
        ensures { result ≡ length self.now }
    {
        self.as_str().chars().count()
    }

    /// The empty text.
    pub fn empty() -> Text
        ensures { result ≡ [] }
    {
        Text {
            kept: Kept::Short(ArrayString::new()),
        }
    }

    /// The same text. It takes no memory where it has at most 16 bytes.
    pub fn try_clone(&self, alloc: Global) -> Result<Text, OutOfMemory>
        ensures { IfOk result (λ text. text ≡ self.now) }
    {
        let kept = self.kept.try_clone(alloc)?;
        Ok(Text { kept })
    }
}

impl fmt::Debug for Text {
    fn fmt<W: fmt::Write>(&self, f: &mut fmt::Formatter<W>) -> fmt::Result {
        fmt::Debug::fmt(&self.as_str(), f)
    }
}
