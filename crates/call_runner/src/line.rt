//! What a line is run between, and what comes of it.
ghost use Rattle.std.specs.Prelude.{◌≡◌};

use aidl_base::{OutOfMemory, Row};
use aidl_outside::Carried;
use aidl_values::Value;
use call_scripts::Refused;
use stub_dispatch::Got;

/// What a line comes to.
#[derive(Drop)]
pub enum LineOut {
    /// It is no call, and nothing was sent.
    Refused(Refused),
    /// The server refused the request with this status.
    Transport {
        status: i32,
    },
    /// A oneway call: what the handler saw, if it was called.
    OnewayDone {
        saw: Option<Row<Value>>,
    },
    /// What the handler saw, if it was called, and what the client made of the reply.
    Done {
        saw: Option<Row<Value>>,
        client: Got,
    },
}

/// The methods by whose types the values of a line are: the client's, by the number of its interface and its position there, and that
/// of the server whose code the request has.
#[derive(Clone, Copy)]
pub struct Methods {
    pub interface: u32,
    pub method: u32,
    pub server: u32,
    pub called: u32,
}

/// What a line comes to, the parcels that were carried of it, in order, and the methods by whose types its values are; None where the line
/// or its request is refused, so where it has none.
#[derive(Drop)]
pub struct LineRun {
    pub out: LineOut,
    pub carried: Row<Carried>,
    pub methods: Option<Methods>,
}

/// Why a line has no answer.
#[derive(Clone, Copy, PartialEq, Eq)]
pub enum RunFault {
    /// A call of the link failed.
    LinkFault,
    OutOfMemory,
}

impl From<OutOfMemory> for RunFault {
    ghost use Rattle.call_runner.specs.declared.line.RunFault.TheVariants.{OutOfMemory as Lost};

    ghost from_gives = { λ _ fault. fault ≡ Lost };

    fn from(_fault: OutOfMemory) -> RunFault {
        RunFault::OutOfMemory
    }
}
