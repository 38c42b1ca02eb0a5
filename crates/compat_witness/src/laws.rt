//! The law of witnesses: where the condition of a rule's row is met, one of its candidates shows the broken rule; and the law by which one
//! method stands for all that reach a declaration.
ghost use Rattle.std.specs.Prelude.{◌≡◌, List, Some};
ghost use Rattle.aidl_schema.specs.Broken.{broken};
ghost use Rattle.aidl_schema.specs.Unbroken.{Has};
ghost use Rattle.compat_witness.specs.Alike.{AreAlike};
ghost use Rattle.compat_witness.specs.Candidates.{AreSmall, Candidate, Shows};
ghost use Rattle.compat_witness.specs.Rows.{Row};
ghost use Rattle.compat_witness.specs.RowsByRule.{row_of};

use aidl_base::Text;
use aidl_schema::Schema;

/// The law of witnesses: of each entry of the judge's list whose rule has a row and which meets its condition, if no candidate that fits has
/// more than 1,048,576 bytes, one that counts differs, so it shows the broken rule.
pub fn law_shown(old: &Schema, new: &Schema, rule: u8, place: &Text)
    requires entry { Has (broken old.now.decls new.now.decls) (rule, place.now) }
    ensures { (row : Row) → row_of rule ≡ Some row
        → (cs : List Candidate) → row old.now.decls new.now.decls place.now ≡ Some cs
        → AreSmall old.now.decls new.now.decls cs → Shows old.now.decls new.now.decls cs }
{}

/// The law of one value: of the methods that reach a declaration, where the request of one with a value counts and differs, so does that of each
/// other one which has at most 1,048,576 bytes.
pub fn law_alike(client: &Schema, server: &Schema)
    ensures { AreAlike client.now.decls server.now.decls }
{}
