//! The call of an object in memory that failed last.
ghost use Rattle.std.specs.Prelude.{◌≡◌, IfOk};
ghost use Rattle.aidl_outside.specs.Faults.{listing as lists, reading, writing};
ghost use Rattle.aidl_outside.specs.Parcel.{parcel};
ghost use Rattle.memory_outside.specs.Last.{call_seen, parcel_seen};

use aidl_base::{OutOfMemory, Row};
use aidl_outside::Way;
use std::alloc::Global;

/// A call of a store, by its path; of a reading also how many bytes were asked for at the most.
#[derive(Drop)]
pub enum FailedCall {
    Listing(String),
    Reading(String, usize),
    Writing(String),
}

/// A parcel that was to be carried.
#[derive(Drop)]
pub struct FailedParcel {
    pub way: Way,
    pub code: u32,
    pub sent: Row<u8>,
}

/// A listing of a root.
pub fn listing(alloc: Global, root: &str) -> Result<FailedCall, OutOfMemory>
    ensures { IfOk result (λ call. call_seen call ≡ lists root.now) }
{
    Ok(FailedCall::Listing(String::from_str(alloc, root)?))
}

/// A reading of at most so many bytes at a path.
pub fn reading(alloc: Global, path: &str, most: usize) -> Result<FailedCall, OutOfMemory>
    ensures { IfOk result (λ call. call_seen call ≡ reading path.now most) }
{
    Ok(FailedCall::Reading(String::from_str(alloc, path)?, most))
}

/// A writing of a path.
pub fn writing(alloc: Global, path: &str) -> Result<FailedCall, OutOfMemory>
    ensures { IfOk result (λ call. call_seen call ≡ writing path.now) }
{
    Ok(FailedCall::Writing(String::from_str(alloc, path)?))
}

/// The bytes of a put.
pub fn piece(alloc: Global, bytes: &[u8]) -> Result<Row<u8>, OutOfMemory>
    ensures { IfOk result (λ piece. piece ≡ bytes.now) }
{
    Ok(Row::from_vec(Vec::from_slice(alloc, bytes)?))
}

/// A parcel by its parts.
pub fn sent(alloc: Global, way: Way, code: u32, bytes: &[u8]) -> Result<FailedParcel, OutOfMemory>
    ensures { IfOk result (λ failed. parcel_seen failed ≡ parcel way code bytes.now) }
{
    let sent = piece(alloc, bytes)?;
    Ok(FailedParcel { way, code, sent })
}
