//! Where a rule is asked: of a declaration as a whole, at common methods, at their arguments, and at common or added fields.
ghost use Rattle.std.specs.Prelude.{◌≡◌, drop};
ghost use Rattle.std.specs.Option.{option_copied};
ghost use Rattle.aidl_schema.specs.Broken.{C13, if_found, of_rule};
ghost use Rattle.compat_judge.specs.steps.Adds.{Adds};
ghost use Rattle.compat_judge.specs.steps.Shapes.{in_arguments, in_arguments_of, in_fields, in_methods, in_decl};
ghost use Rattle.compat_judge.specs.steps.Steps.{AreBeside, breaks_at};

use crate::consts::is_refused_addition;
use crate::differences::{
    ArgumentTest, DeclTest, FieldTest, MethodTest, argument_breaks, decl_breaks, field_breaks,
    method_breaks,
};
use crate::fields::{fields_asked, parcelable_fields};
use crate::findings::Findings;
use crate::sides::Pair;
use aidl_schema::{Field, Method, methods_of};

/// The declaration, if it breaks a rule.
pub fn at_decl(rule: u8, test: DeclTest, pair: &Pair<'_>, found: &mut Findings)
    ensures { Adds found.old found.new (of_rule rule (in_decl test pair.now)) }
{
    let broken = decl_breaks(test, pair.before, pair.after);
    found.name_if(rule, pair.name, broken);
}

/// Common methods that break a rule.
pub fn at_methods(
    rule: u8,
    test: MethodTest,
    pair: &Pair<'_>,
    afters: &[Option<&Method>],
    found: &mut Findings,
)
    requires { AreBeside afters.now pair.now }
    ensures { Adds found.old found.new (of_rule rule (in_methods test pair.now)) }
{
    let olds = methods_of(&pair.before.kind);
    for (i, before) in olds.iter().enumerate() {
        let broken = method_breaks(test, pair.old, before, pair.new, afters[i]);
        found.member_if(rule, pair.name, &before.name, broken);
    }
}

/// Arguments of common methods that break a rule.
pub fn at_arguments(
    rule: u8,
    test: ArgumentTest,
    pair: &Pair<'_>,
    afters: &[Option<&Method>],
    found: &mut Findings,
)
    requires { AreBeside afters.now pair.now }
    ensures { Adds found.old found.new (of_rule rule (in_arguments test pair.now)) }
{
    let olds = methods_of(&pair.before.kind);
    for (i, before) in olds.iter().enumerate() {
        at_arguments_of(rule, test, pair, before, afters[i], found);
    }
}

// Those of a method and the one beside it, if there is one, at the positions below both counts.
fn at_arguments_of(
    rule: u8,
    test: ArgumentTest,
    pair: &Pair<'_>,
    before: &Method,
    after: Option<&Method>,
    found: &mut Findings,
)
    ensures { Adds found.old found.new (of_rule rule
        (if_found (in_arguments_of test pair.now before.now) (option_copied after.entry))) }
{
    let Some(after) = after else {
        return;
    };
    let olds = before.args.as_slice();
    let news = after.args.as_slice();
    for i in 0..olds.len().min(news.len()) {
        let broken = argument_breaks(test, pair.old, &olds[i], pair.new, &news[i]);
        found.argument_if(rule, pair.name, &before.name, i, broken);
    }
}

/// Fields that break a rule, at the positions below both counts.
pub fn at_fields(rule: u8, test: FieldTest, pair: &Pair<'_>, found: &mut Findings)
    ensures { Adds found.old found.new (of_rule rule (in_fields test pair.now)) }
{
    let olds = fields_asked(test, &pair.before.kind);
    let news = fields_asked(test, &pair.after.kind);
    for i in 0..olds.len().min(news.len()) {
        let field = &olds[i];
        let broken = field_breaks(found.alloc, test, pair.old, field, pair.new, &news[i]);
        found.member_if(rule, pair.name, &field.name, broken);
    }
}

/// Fields that may not be added to a parcelable.
pub fn at_additions(rule: u8, pair: &Pair<'_>, found: &mut Findings)
    ensures { Adds found.old found.new (breaks_at rule C13 pair.now) }
{
    let olds = parcelable_fields(&pair.before.kind);
    let news = parcelable_fields(&pair.after.kind);
    let added = past(news, olds.len());
    for field in added {
        let broken = is_refused_addition(pair.new, field);
        found.member_if(rule, pair.name, &field.name, broken);
    }
}

// The fields at positions not below a count.
fn past(fields: &[Field], count: usize) -> &[Field]
    ensures { result.now ≡ drop count fields.now }
{
    &fields[count.min(fields.len())..]
}
