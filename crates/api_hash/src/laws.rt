//! A law of the order of files: their paths strictly ascend.
ghost use Rattle.std.specs.Prelude.{map};
ghost use Rattle.std.specs.Cmp.Lexicographic.{slice_cmp};
ghost use Rattle.std.specs.List.Sorted.{IsPermutation, IsStrictlySortedBy};
ghost use Rattle.std.specs.Ordering.{nat_cmp};
ghost use Rattle.api_hash.specs.HashText.{HaveOwnPaths, in_order, path_of};

use aidl_base::SourceFile;

/// Files in order have strictly ascending paths, by bytes; and where the paths differ they are the same files.
pub fn law_in_order(files: &[SourceFile])
    ensures sorted { IsStrictlySortedBy (slice_cmp nat_cmp) (map path_of (in_order files.now)) }
    ensures same { HaveOwnPaths files.now → IsPermutation files.now (in_order files.now) }
{}
