//! Faults of the host: want of memory, or a failed call.
ghost use Rattle.std.specs.Prelude.{◌≡◌};

use std::alloc::AllocError;
use std::io;
use std::io::ErrorKind;

/// Why the host gave nothing.
pub enum HostFault {
    Failed,
    /// Memory was wanted, by the program or by the host.
    OutOfMemory,
}

impl From<AllocError> for HostFault {
    ghost use Rattle.host_outside.specs.declared.host_fault.HostFault.TheVariants.{OutOfMemory};

    ghost from_gives = { λ _ cause. cause ≡ OutOfMemory };

    fn from(_fault: AllocError) -> HostFault {
        HostFault::OutOfMemory
    }
}

impl From<io::Error> for HostFault {
    ghost use Rattle.host_outside.specs.HostFaults.{caused};

    ghost from_gives = { λ fault cause. cause ≡ caused fault };

    fn from(fault: io::Error) -> HostFault {
        match fault.kind() {
            ErrorKind::OutOfMemory => HostFault::OutOfMemory,
            _ => HostFault::Failed,
        }
    }
}
