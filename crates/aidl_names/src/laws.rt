//! Laws of breaches in order and of gathered trees.
ghost use Rattle.std.specs.Prelude.{◌↔◌, Contains, map};
ghost use Rattle.std.specs.List.Sorted.{IsStrictlySortedBy};
ghost use Rattle.aidl_base.specs.declared.breach.Breach.{Breach};
ghost use Rattle.aidl_names.specs.Breaches.{in_order, order};
ghost use Rattle.aidl_names.specs.Refusals.{IsAccepted};
ghost use Rattle.aidl_syntax.specs.Sources.{AreOfBytes, source_of};

use crate::names::Names;
use aidl_base::Breach;

/// Breaches in order ascend strictly, by file, then offset, then rule, and are those that were given: none is lost and none
/// is added, and what was given more than once is there once.
pub fn law_in_order(rows: &[Breach])
    ensures sorted { IsStrictlySortedBy order (in_order rows.now) }
    ensures same { (b : Breach) → Contains (in_order rows.now) b ↔ Contains rows.now b }
{}

/// What a gathered tree keeps: its files are of bytes, and it passes no limit on declarations and breaks none of E1 to E5.
pub fn law_accepted(names: &Names<'_>)
    ensures of_bytes { AreOfBytes names.now }
    ensures accepted { IsAccepted (map source_of names.now) }
{
    names.files();
}
