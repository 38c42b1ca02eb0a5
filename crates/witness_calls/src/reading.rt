//! One side of a shown call.

use aidl_base::Row;
use aidl_values::Value;
use stub_dispatch::Got;

/// One side of a shown call, what is read of its bytes or what it is projected to. Of a request: the transport status that refuses
/// it, the method for which bytes are left over, or the method that is called with what it sees; both are positions in the
/// server's interface. Of a reply: what the client has, or that there is none (own).
pub enum Reading {
    Transport(i32),
    Left(u32),
    Called { method: u32, saw: Row<Value> },
    Client(Got),
    NoReply,
}

impl Drop for Reading {
    fn drop(self) {
        match self {
            Reading::Transport(_) => {}
            Reading::Left(_) => {}
            Reading::Called { method: _, saw: _ } => {}
            Reading::Client(_) => {}
            Reading::NoReply => {}
        }
    }
}
