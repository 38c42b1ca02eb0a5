//! The log of a link in memory: how one carry is recorded, with what was sent and what was delivered.
ghost use Rattle.std.specs.Prelude.{◌≡◌, ◌++◌, ◌∷◌, [], IfOk, OnErr, OnOk};
ghost use Rattle.aidl_outside.specs.Carries.{entry};

use aidl_base::{OutOfMemory, Row};
use aidl_outside::{Carried, Way};
use std::alloc::Global;

/// Adds what was carried to the log, and answers the delivered bytes. On a refusal the log is as it was.
pub fn record(
    alloc: Global,
    log: &mut Vec<Carried>,
    way: Way,
    code: u32,
    sent: &[u8],
    delivered: Vec<u8>,
) -> Result<Vec<u8>, OutOfMemory>
    ensures ok { OnOk result (log.new.items
        ≡ log.old.items ++ entry way code sent.now delivered.items ∷ []) }
    ensures err { OnErr result (log.new.items ≡ log.old.items) }
    ensures delivered { IfOk result (λ bytes. bytes.items ≡ delivered.items) }
{
    let sent = Vec::from_slice(alloc, sent)?;
    let copy = Vec::from_slice(alloc, delivered.as_slice())?;
    log.push(Carried {
        way,
        code,
        sent: Row::from_vec(sent),
        delivered: Row::from_vec(copy),
    })?;
    Ok(delivered)
}
