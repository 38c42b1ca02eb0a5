//! Laws of the definitions of outcomes: each item has one and no two, and their breaches are in order.
ghost use Rattle.std.specs.Prelude.{◌≡◌, ℕ, List, map};
ghost use Rattle.aidl_names.specs.Breaches.{in_order};
ghost use Rattle.aidl_syntax.specs.Sources.{Source, source_of};
ghost use Rattle.const_eval.specs.Breaches.{breaches};
ghost use Rattle.const_items.specs.Items.{items};
ghost use Rattle.const_eval.specs.Outcomes.{AreOutcomes, HasOutcome};
ghost use Rattle.const_eval.specs.declared.outcome.Outcome.{Outcome};

use aidl_names::Names;
use aidl_syntax::ParsedFile;
use const_items::law_places;

/// A law of the definitions: no item has two outcomes.
pub fn law_one_outcome(files: &[ParsedFile])
    ensures { (n : ℕ) (first second : Outcome) → HasOutcome (map source_of files.now) n first
        → HasOutcome (map source_of files.now) n second → first ≡ second }
{}

/// A law of the definitions: the items of any files have outcomes, one for each.
pub fn law_some_outcomes()
    ensures { (files : List Source) → (outcomes : List Outcome) × AreOutcomes files outcomes }
{}

/// A law of the definitions: the breaches of the items of a tree, whatever their outcomes, are sorted by file, offset and rule, each
/// once.
pub fn law_breaches_in_order(names: &Names<'_>)
    ensures { (outcome : ℕ → Outcome)
        → let all = breaches outcome (items (map source_of names.now)) in in_order all ≡ all }
{
    law_places(names.files());
}
