//! Paths below an API: a version's folder, its files and its `.hash`.
ghost use Rattle.std.specs.Prelude.{◌≡◌, IfOk, string_bytes};
ghost use Rattle.api_versions.specs.Versions as meant;

use aidl_base::OutOfMemory;
use aidl_outside::path_below;
use std::alloc::Global;
use std::fmt::Write;

/// The path of a version's folder.
pub fn version_folder(alloc: Global, api: &str, number: u32) -> Result<String, OutOfMemory>
    ensures { IfOk result (λ path. string_bytes path ≡ meant.version_folder api.now number) }
{
    let mut path = String::new(alloc);
    write!(path, "{api}/{number}")?;
    Ok(path)
}

/// The path of a version's `.hash`.
pub fn hash_path(alloc: Global, api: &str, number: u32) -> Result<String, OutOfMemory>
    ensures { IfOk result (λ path. string_bytes path ≡ meant.hash_path api.now number) }
{
    let folder = version_folder(alloc, api, number)?;
    path_below(alloc, folder.as_str(), ".hash")
}
