//! A law of what it means that the joined breaches are none.
ghost use Rattle.std.specs.Prelude.{◌≡◌, ◌++◌, [], List, map};
ghost use Rattle.aidl_base.specs.declared.breach.Breach.{Breach};
ghost use Rattle.aidl_names.specs.Breaches.{in_order};
ghost use Rattle.aidl_syntax.specs.Sources.{source_of};
ghost use Rattle.type_rules.specs.Breaches.{unsorted};
ghost use Rattle.type_rules.specs.Unbroken.{AreUnbroken};

use aidl_syntax::ParsedFile;

/// A law of the definitions: where these breaches and further ones, in order, are none, there are no further ones, and no declaration
/// breaks E13 to E21 or E24.
pub fn law_unbroken(files: &[ParsedFile])
    ensures further { (more : List Breach) → in_order (unsorted (map source_of files.now) ++ more)
        ≡ [] → more ≡ [] }
    ensures declarations { (more : List Breach)
        → in_order (unsorted (map source_of files.now) ++ more) ≡ []
        → AreUnbroken (map source_of files.now) }
{}
