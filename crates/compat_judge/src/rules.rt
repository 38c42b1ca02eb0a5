//! The rules C2 to C19 on a pair of declarations, in the order of their numbers.
ghost use Rattle.std.specs.Prelude.{◌≡◌, drop};
ghost use Rattle.aidl_schema.specs.Broken as broken;
ghost use Rattle.compat_judge.specs.steps.Adds.{Adds};
ghost use Rattle.compat_judge.specs.steps.Steps.{AreBeside, breaks_in};

use crate::differences::{ArgumentTest, DeclTest, FieldTest, MethodTest};
use crate::findings::Findings;
use crate::lookup::beside;
use crate::members::{at_lost_constants, at_lost_enumerators, at_lost_methods};
use crate::shapes::{at_additions, at_arguments, at_decl, at_fields, at_methods};
use crate::sides::Pair;
use aidl_schema::{Method, methods_of, same_kind};

/// C2 to C19: what a declaration of old and that of its name in new break.
pub fn broken_by(pair: &Pair<'_>, found: &mut Findings)
    ensures { Adds found.old found.new (broken.broken_by
        pair.now.old.now.decls pair.now.before.now pair.now.new.now.decls pair.now.after.now) }
{
    if same_kind(&pair.before.kind, &pair.after.kind) {
        broken_inside(pair, found);
    } else {
        // C2: the kinds differ.
        found.name_if(2, pair.name, true);
    }
}

// C3 to C19, which are asked where the kinds are the same.
fn broken_inside(pair: &Pair<'_>, found: &mut Findings)
    ensures { Adds found.old found.new (breaks_in broken.rules pair.now) }
{
    let olds = methods_of(&pair.before.kind);
    let news = methods_of(&pair.after.kind);
    let Ok(afters) = beside(found.alloc, olds, news) else {
        return found.lose();
    };
    let afters = afters.as_slice();
    // C3: a method of old isn't in new.
    at_lost_methods(3, pair, afters, found);
    // C4: a common method's ids differ.
    at_methods(4, MethodTest::Ids, pair, afters, found);
    // C5: a common method's return types differ.
    at_methods(5, MethodTest::Results, pair, afters, found);
    // C6: a common method's argument counts differ; or the types at a position below both counts differ.
    at_methods(6, MethodTest::Counts, pair, afters, found);
    at_arguments(6, ArgumentTest::Types, pair, afters, found);
    // C7: the directions at a position below both counts differ.
    at_arguments(7, ArgumentTest::Ways, pair, afters, found);
    // C8: one is oneway and the other isn't.
    at_methods(8, MethodTest::Oneway, pair, afters, found);
    broken_from_c9(pair, afters, found);
}

// C9 to C19, of which C19 asks methods too.
fn broken_from_c9(pair: &Pair<'_>, afters: &[Option<&Method>], found: &mut Findings)
    requires { AreBeside afters.now pair.now }
    ensures { Adds found.old found.new (breaks_in (drop 6 broken.rules) pair.now) }
{
    // C9: a parcelable of new has fewer fields.
    at_decl(9, DeclTest::FewerFields, pair, found);
    // C10: the names of a parcelable's fields at a position below both counts differ.
    at_fields(10, FieldTest::Names, pair, found);
    // C11: the types at such a position differ.
    at_fields(11, FieldTest::Types, pair, found);
    // C12: the types at such a position, or at position 0 of a union, are the same and the defaults differ.
    at_fields(12, FieldTest::Defaults, pair, found);
    // C13: a field that is added has a default that not every reader can make.
    at_additions(13, pair, found);
    // C14: `@FixedSize` stands in one schema alone; or in both, and new has more fields.
    at_decl(14, DeclTest::Fixed, pair, found);
    // C15: a union of new has fewer fields; or names or types at a position below both counts differ.
    at_decl(15, DeclTest::FewerAlternatives, pair, found);
    at_fields(15, FieldTest::Alternatives, pair, found);
    // C16: the backings of an enum differ.
    at_decl(16, DeclTest::Backings, pair, found);
    // C17: an enumerator of old isn't in new, or its value differs.
    at_lost_enumerators(17, pair, found);
    // C18: a constant of old isn't in new, or its type or value differs.
    at_lost_constants(18, pair, found);
    // C19: `@VintfStability` differs; or `@utf8InCpp` or `heap` differs at a field or argument position below both
    // counts, or on a common method's return type where both return a value.
    at_decl(19, DeclTest::Stability, pair, found);
    at_fields(19, FieldTest::Marks, pair, found);
    at_arguments(19, ArgumentTest::Marks, pair, afters, found);
    at_methods(19, MethodTest::Marks, pair, afters, found);
}
