//! How the UTF-8 of a text is kept: a short one in place, a longer one as a string.
ghost use Rattle.std.specs.Prelude.{◌≡◌, string_bytes, IfOk};
ghost use Rattle.aidl_base.specs.Kept.{bytes_of};

use crate::OutOfMemory;
use arrayvec::ArrayString;
use std::alloc::Global;

/// The UTF-8 of a text: in itself where it has at most 16 bytes, as most names have, so that it takes no memory elsewhere.
#[derive(Drop)]
pub enum Kept {
    Short(ArrayString<16>),
    Long(String),
}

impl Kept {
    pub fn from_str(alloc: Global, text: &str) -> Result<Kept, OutOfMemory>
        ensures { IfOk result (λ kept. bytes_of kept ≡ text.now) }
    {
        match ArrayString::from(text) {
            Ok(short) => Ok(Kept::Short(short)),
            Err(_) => Ok(Kept::Long(String::from_str(alloc, text)?)),
        }
    }

    pub fn as_str(&self) -> &str
        ensures { result.now ≡ bytes_of self.now }
    {
        match self {
            Kept::Short(short) => short.as_str(),
            Kept::Long(long) => long.as_str(),
        }
    }

    pub fn try_clone(&self, alloc: Global) -> Result<Kept, OutOfMemory>
        ensures { IfOk result (λ kept. bytes_of kept ≡ bytes_of self.now) }
    {
        match self {
            Kept::Short(short) => Ok(Kept::Short(*short)),
            Kept::Long(long) => Ok(Kept::Long(String::from_str(alloc, long.as_str())?)),
        }
    }
}
