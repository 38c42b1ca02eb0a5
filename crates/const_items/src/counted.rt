//! Laws of the numbers and places of items: how many a tree has, and how far their places reach.
ghost use Rattle.std.specs.Prelude.{◌≤◌, length, map};
ghost use Rattle.std.specs.List.{All};
ghost use Rattle.aidl_syntax.specs.Sources.{AreOfBytes, source_of};
ghost use Rattle.const_items.specs.Items.{items};
ghost use Rattle.const_items.specs.SmallPlaces.{HasSmall};

use aidl_names::Names;
use aidl_syntax::{ParsedFile, law_tree};

/// A law of the definitions: a tree has at most 2^30 items, since their places differ and lie in 4,096 files of 262,144 bytes.
pub fn law_count(names: &Names<'_>)
    ensures { length (items (map source_of names.now)) ≤ 1073741824 }
{
    let files = names.files();
    law_places(files);
}

/// The places of each tree lie below the most bytes of a file.
pub fn law_places(files: &[ParsedFile])
    requires { AreOfBytes files.now }
    ensures { All HasSmall (map source_of files.now) }
{
    for file in files {
        law_tree(&file.tree);
    }
}
