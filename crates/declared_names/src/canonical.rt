//! Canonical names made part by part.
ghost use Rattle.std.specs.Prelude.{◌≡◌, ◌++◌, [], ◌∷◌, IfOk};

use aidl_base::{Ident, OutOfMemory};
use std::alloc::Global;

/// The same parts.
pub fn copied(alloc: Global, parts: &[Ident]) -> Result<Vec<Ident>, OutOfMemory>
    ensures { IfOk result (λ copy. copy.items ≡ parts.now) }
{
    let mut copy = Vec::new(alloc);
    for part in parts {
        copy.push(Ident(part.0.try_clone(alloc)?))?;
    }
    Ok(copy)
}

/// The parts, and one more behind them.
pub fn extended(alloc: Global, parts: &[Ident], last: &Ident) -> Result<Vec<Ident>, OutOfMemory>
    ensures { IfOk result (λ copy. copy.items ≡ parts.now ++ last.now ∷ []) }
{
    let mut copy = copied(alloc, parts)?;
    copy.push(Ident(last.0.try_clone(alloc)?))?;
    Ok(copy)
}
