//! Laws of drafts: which rules of a valid schema a draft keeps, and when it is valid.
ghost use Rattle.std.specs.Prelude.{map, IsTrue};
ghost use Rattle.std.specs.List.{All};
ghost use Rattle.std.specs.List.Sorted.{IsStrictlyIncreasing};
ghost use Rattle.aidl_syntax.specs.Sources.{AreOfBytes, source_of};
ghost use Rattle.aidl_schema.specs.Names.{has_names, has_members};
ghost use Rattle.aidl_schema.specs.Valid.{IsValid, is_within_limits};
ghost use Rattle.aidl_syntax.specs.Parses.{Holds};
ghost use Rattle.aidl_syntax.specs.Walks.{literals_of, places_of};
ghost use Rattle.tree_schema.specs.Checked.{IsChecked};
ghost use Rattle.tree_schema.specs.Named.{HasIdentifiers};
ghost use Rattle.tree_schema.specs.SchemaOf.{schema_of};
ghost use Rattle.tree_schema.specs.Values.{Outcomes};

use aidl_names::Names;
use aidl_syntax::{ParsedFile, law_tree};

/// A law of the definitions: the schema of a tree that breaks none of E1 to E5 and passes no limit has the first two
/// rules of a valid schema, and is within its limits, whatever the outcomes of the tree's items.
pub fn law_named(names: &Names<'_>)
    ensures names { (outcomes : Outcomes)
        → IsTrue (has_names (schema_of (map source_of names.now) outcomes)) }
    ensures members { (outcomes : Outcomes)
        → IsTrue (has_members (schema_of (map source_of names.now) outcomes)) }
    ensures limits { (outcomes : Outcomes)
        → IsTrue (is_within_limits (schema_of (map source_of names.now) outcomes)) }
{
    law_trees(names.files());
}

/// A law of the definitions: the schema of a tree that breaks no rule and passes no limit is valid.
pub fn law_valid(names: &Names<'_>)
    ensures { (outcomes : Outcomes) → IsChecked (map source_of names.now) outcomes
        → IsValid (schema_of (map source_of names.now) outcomes) }
{
    law_named(names);
    law_trees(names.files());
}

// In each tree the names are identifiers, the places ascend, and each literal holds what its kind may hold.
fn law_trees(files: &[ParsedFile])
    requires { AreOfBytes files.now }
    ensures names { All HasIdentifiers (map source_of files.now) }
    ensures places { All (λ s. IsStrictlyIncreasing (places_of s.tree)) (map source_of files.now) }
    ensures literals { All (λ s. All (λ t. Holds t.kind) (literals_of s.tree)) (map source_of files.now) }
{
    for file in files {
        law_tree(&file.tree);
    }
}
