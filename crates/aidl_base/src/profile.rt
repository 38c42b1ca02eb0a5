//! The profiles of a reader: strict, and lenient.
ghost use Rattle.std.specs.Prelude.{◌≡◌};
ghost use Rattle.aidl_base.specs.Profiles.{permits};

/// By which rules bytes are read (own). What is written is the same by both.
#[derive(Clone, Copy, PartialEq, Eq)]
pub enum Profile {
    /// an item is taken only as it is written
    Strict,
    /// any boolean, byte or char word, any marker but 0 and any padding are taken
    Lenient,
}

impl Profile {
    /// Whether an item is taken, by whether it is as it would be written.
    pub fn permits(self, as_written: bool) -> bool
        ensures { result ≡ permits self as_written }
    {
        match self {
            Profile::Strict => as_written,
            Profile::Lenient => true,
        }
    }
}
