//! The law of witnesses for all rows of the table.
ghost use Rattle.std.specs.Prelude.{◌≡◌, List, Some};
ghost use Rattle.aidl_schema.specs.Broken.{broken};
ghost use Rattle.aidl_schema.specs.Unbroken.{Has};
ghost use Rattle.compat_judge.specs.Seen.{seen};
ghost use Rattle.compat_witness.specs.Candidates.{AreSmall, Candidate, Shows};
ghost use Rattle.compat_witness.specs.Rows.{Row};
ghost use Rattle.compat_witness.specs.RowsByRule.{row_of};

use aidl_schema::Schema;
use compat_judge::Broken;

/// The law of witnesses: of each entry of the judge's list whose rule has a row and which meets its condition, if no candidate that fits has
/// more than 1,048,576 bytes, one that counts differs.
pub fn law_shown(old: &Schema, new: &Schema, entry: &Broken)
    requires among { Has (broken old.now.decls new.now.decls) (seen entry.now) }
    ensures { (row : Row) → row_of entry.now.rule ≡ Some row
        → (cs : List Candidate) → row old.now.decls new.now.decls entry.now.place ≡ Some cs
        → AreSmall old.now.decls new.now.decls cs → Shows old.now.decls new.now.decls cs }
{
    compat_witness::law_shown(old, new, entry.rule, &entry.place);
}
