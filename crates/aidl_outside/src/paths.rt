//! The path of a file below a folder.
ghost use Rattle.std.specs.Prelude.{◌≡◌, IfOk, string_bytes};
ghost use Rattle.aidl_outside.specs.Files as meant;

use aidl_base::OutOfMemory;
use std::alloc::Global;

/// The path of a file below a folder: the folder, `/` and the relative path.
pub fn path_below(alloc: Global, folder: &str, path: &str) -> Result<String, OutOfMemory>
    ensures { IfOk result (λ whole. string_bytes whole ≡ meant.path_below folder.now path.now) }
{
    let mut whole = String::from_str(alloc, folder)?;
    whole.push_str("/")?;
    whole.push_str(path)?;
    Ok(whole)
}
