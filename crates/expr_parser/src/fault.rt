//! The faults of the parser.

use aidl_base::{Limit, OutOfMemory};
use std::alloc::{AllocError, AllocFailed};

/// Why tokens have no tree.
#[derive(Clone, Copy, PartialEq, Eq)]
pub enum ParseFault {
    /// 1: the tokens pass a limit
    Limit(Limit),
    /// 2: no tree stands for the tokens
    Syntax,
    /// memory was wanted and was not there
    OutOfMemory,
}

impl From<OutOfMemory> for ParseFault {
    ghost use Rattle.std.specs.Prelude.{◌≡◌};
    ghost use Rattle.expr_parser.specs.declared.fault.ParseFault.TheVariants.{OutOfMemory};

    ghost from_gives = { λ _ e. e ≡ OutOfMemory };

    fn from(_fault: OutOfMemory) -> ParseFault {
        ParseFault::OutOfMemory
    }
}

impl From<AllocError> for ParseFault {
    ghost use Rattle.std.specs.Prelude.{◌≡◌};
    ghost use Rattle.expr_parser.specs.declared.fault.ParseFault.TheVariants.{OutOfMemory};

    ghost from_gives = { λ _ e. e ≡ OutOfMemory };

    fn from(_fault: AllocError) -> ParseFault {
        ParseFault::OutOfMemory
    }
}

impl<T: Drop> From<AllocFailed<T>> for ParseFault {
    ghost use Rattle.std.specs.Prelude.{◌≡◌};
    ghost use Rattle.expr_parser.specs.declared.fault.ParseFault.TheVariants.{OutOfMemory};

    ghost from_gives = { λ _ e. e ≡ OutOfMemory };

    fn from(_fault: AllocFailed<T>) -> ParseFault {
        ParseFault::OutOfMemory
    }
}
