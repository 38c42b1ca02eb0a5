//! The faults of reading words, with the status number of each.
ghost use Rattle.std.specs.Prelude.{◌≡◌};
ghost use Rattle.parcel_words.specs.declared.fault.ReadFault.TheVariants.{OutOfMemory as NoMemory};

use aidl_base::OutOfMemory;
use std::alloc::{AllocError, AllocFailed};

/// BAD_VALUE: an item isn't one that can be read or written (libutils, Errors.h).
pub const BAD_VALUE: i32 = -22;

/// Why nothing was read.
#[derive(Clone, Copy, Debug, PartialEq, Eq)]
pub enum ReadFault {
    /// an item passes the end of the data
    NotEnough,
    /// null stands where a value has to be
    UnexpectedNull,
    /// an item is none of those that its type permits, or it passes the end of a record
    BadValue,
    /// memory was wanted and was not there
    OutOfMemory,
}

impl ReadFault {
    ghost use Rattle.parcel_words.specs.Taken.{status_of};

    /// The status number (libutils, Errors.h): NOT_ENOUGH_DATA, UNEXPECTED_NULL or BAD_VALUE. None for want of memory
    /// and for nothing else.
    pub fn status(&self) -> Option<i32>
        ensures { result ≡ status_of self.now }
    {
        match self {
            ReadFault::NotEnough => Some(-61),
            ReadFault::UnexpectedNull => Some(-2_147_483_640),
            ReadFault::BadValue => Some(BAD_VALUE),
            ReadFault::OutOfMemory => None,
        }
    }
}

impl From<OutOfMemory> for ReadFault {
    ghost from_gives = { λ _ fault. fault ≡ NoMemory };

    fn from(_fault: OutOfMemory) -> ReadFault {
        ReadFault::OutOfMemory
    }
}

impl From<AllocError> for ReadFault {
    ghost from_gives = { λ _ fault. fault ≡ NoMemory };

    fn from(_fault: AllocError) -> ReadFault {
        ReadFault::OutOfMemory
    }
}

impl<T: Drop> From<AllocFailed<T>> for ReadFault {
    ghost from_gives = { λ _ fault. fault ≡ NoMemory };

    fn from(_fault: AllocFailed<T>) -> ReadFault {
        ReadFault::OutOfMemory
    }
}
