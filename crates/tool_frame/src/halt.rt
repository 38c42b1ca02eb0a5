//! Why a command that reads the store ends before its last step.
ghost use Rattle.std.specs.Prelude.{◌≡◌};

use crate::printed::{Early, Printed};
use aidl_base::OutOfMemory;
use aidl_outside::StoreFault;

/// Why a command that reads the store ends before its last step.
#[derive(Drop)]
pub enum Halt {
    /// A refusal, with what is printed.
    Answered(Printed),
    /// A call of the store failed.
    StoreFailed,
    OutOfMemory,
}

impl From<Early> for Halt {
    ghost use Rattle.tool_frame.specs.Halts.{halt_of};

    ghost from_gives = { λ early halt. halt ≡ halt_of early };

    fn from(early: Early) -> Halt {
        match early {
            Early::Answered(printed) => Halt::Answered(printed),
            Early::OutOfMemory => Halt::OutOfMemory,
        }
    }
}

impl From<StoreFault> for Halt {
    ghost use Rattle.tool_frame.specs.Halts.{halt_by};

    ghost from_gives = { λ fault halt. halt ≡ halt_by fault };

    fn from(fault: StoreFault) -> Halt {
        match fault {
            StoreFault::Failed => Halt::StoreFailed,
            StoreFault::OutOfMemory => Halt::OutOfMemory,
        }
    }
}

impl From<OutOfMemory> for Halt {
    ghost use Rattle.tool_frame.specs.declared.halt.Halt.TheVariants.{OutOfMemory as Lost};

    ghost from_gives = { λ _ halt. halt ≡ Lost };

    fn from(_fault: OutOfMemory) -> Halt {
        Halt::OutOfMemory
    }
}
