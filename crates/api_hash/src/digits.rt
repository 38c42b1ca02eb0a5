//! SHA-1 in hexadecimal digits.
ghost use Rattle.std.specs.Prelude.{◌≡◌, IfOk, string_bytes};
ghost use Rattle.api_hash.specs.HashText as meant;

use aidl_base::OutOfMemory;
use sha1::Sha1;
use std::alloc::Global;

/// The 40 lower-case hexadecimal digits of the SHA-1 of bytes (FIPS 180-4).
pub fn digits(alloc: Global, bytes: &[u8]) -> Result<String, OutOfMemory>
    ensures { IfOk result (λ text. string_bytes text ≡ meant.digits bytes.now) }
{
    let digest = Sha1::digest(bytes);
    let text = hex::encode(alloc, digest.as_slice())?;
    Ok(text)
}
