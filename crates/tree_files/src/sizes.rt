//! The limits on the number of files and on the bytes of each.
ghost use Rattle.std.specs.Prelude.{◌≡◌, ◌≤◌, length, IfNone};
ghost use Rattle.std.specs.List.{All, list_any};
ghost use Rattle.tree_files.specs.Sizes.{oversized, is_long};

use aidl_base::{LimitName, SourceFile};

/// The limit that the number of files passes, or else that the bytes of one file pass.
pub fn oversized(files: &[SourceFile]) -> Option<LimitName>
    ensures limit { result ≡ oversized files.now }
    ensures few { IfNone result (length files.now ≤ 4096) }
    ensures short { IfNone result (All (λ f. length f.bytes ≤ 262144) files.now) }
{
    if files.len() > LimitName::Files.number() as usize {
        Some(LimitName::Files)
    } else if any_long(files) {
        Some(LimitName::FileBytes)
    } else {
        None
    }
}

fn any_long(files: &[SourceFile]) -> bool
    ensures { result ≡ list_any is_long files.now }
{
    files.iter().any(|file| file.bytes.len() > LimitName::FileBytes.number() as usize)
}
