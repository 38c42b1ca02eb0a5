//! The faults of the lexer: their kinds, printed numbers and names, and places.
ghost use Rattle.std.specs.Prelude.{◌≡◌};
ghost use Rattle.std.specs.Option.{option_copied};
ghost use Rattle.aidl_lexer.specs.Naming.{fault_number, number_of, offset_of, name_of};

use aidl_base::OutOfMemory;
use std::alloc::AllocFailed;

/// Why bytes have no tokens. The offset is that of the first byte at which no blank, comment or token can be taken,
/// from the start of the file.
#[derive(Clone, Copy, PartialEq, Eq)]
pub enum LexFault {
    /// 1: the byte begins nothing
    BadByte { offset: u32 },
    /// 2: `/*` with no `*/` after it
    OpenComment { offset: u32 },
    /// 3: a quote that begins no character and no string
    OpenLiteral { offset: u32 },
    /// 4: a run of letters, digits and `_` from a digit on that isn't a number
    BadNumber { offset: u32 },
    /// memory was wanted and was not there
    OutOfMemory,
}

impl LexFault {
    /// The number that is printed, 1 to 4, and None for want of memory.
    pub fn number(self) -> Option<u8>
        ensures { result ≡ number_of self }
    {
        match self {
            LexFault::BadByte { offset: _ } => Some(1),
            LexFault::OpenComment { offset: _ } => Some(2),
            LexFault::OpenLiteral { offset: _ } => Some(3),
            LexFault::BadNumber { offset: _ } => Some(4),
            LexFault::OutOfMemory => None,
        }
    }

    /// Where it stands, in bytes, and None for want of memory.
    pub fn offset(self) -> Option<u32>
        ensures { result ≡ offset_of self }
    {
        match self {
            LexFault::BadByte { offset }
            | LexFault::OpenComment { offset }
            | LexFault::OpenLiteral { offset }
            | LexFault::BadNumber { offset } => Some(offset),
            LexFault::OutOfMemory => None,
        }
    }

    /// The name that is printed, and None for want of memory.
    pub fn name(self) -> Option<&'static str>
        ensures { option_copied result ≡ name_of self }
    {
        match self {
            LexFault::BadByte { offset: _ } => Some("BadByte"),
            LexFault::OpenComment { offset: _ } => Some("OpenComment"),
            LexFault::OpenLiteral { offset: _ } => Some("OpenLiteral"),
            LexFault::BadNumber { offset: _ } => Some("BadNumber"),
            LexFault::OutOfMemory => None,
        }
    }
}

impl From<OutOfMemory> for LexFault {
    ghost use Rattle.std.specs.Prelude.{◌≡◌};
    ghost use Rattle.aidl_lexer.specs.declared.fault.LexFault.TheVariants.{OutOfMemory};

    ghost from_gives = { λ _ e. e ≡ OutOfMemory };

    fn from(_fault: OutOfMemory) -> LexFault {
        LexFault::OutOfMemory
    }
}

impl<T: Drop> From<AllocFailed<T>> for LexFault {
    ghost use Rattle.std.specs.Prelude.{◌≡◌};
    ghost use Rattle.aidl_lexer.specs.declared.fault.LexFault.TheVariants.{OutOfMemory};

    ghost from_gives = { λ _ e. e ≡ OutOfMemory };

    fn from(_fault: AllocFailed<T>) -> LexFault {
        LexFault::OutOfMemory
    }
}

/// What stops the cutting, without its place.
#[derive(Clone, Copy, PartialEq, Eq)]
pub enum FaultKind {
    BadByte,
    OpenComment,
    OpenLiteral,
    BadNumber,
}

impl FaultKind {
    /// The fault at an offset in bytes.
    pub fn at(self, offset: u32) -> LexFault
        ensures number { number_of result ≡ Some (fault_number self) }
        ensures place { offset_of result ≡ Some offset }
    {
        match self {
            FaultKind::BadByte => LexFault::BadByte { offset },
            FaultKind::OpenComment => LexFault::OpenComment { offset },
            FaultKind::OpenLiteral => LexFault::OpenLiteral { offset },
            FaultKind::BadNumber => LexFault::BadNumber { offset },
        }
    }
}
