//! Methods, enumerators and constants by their names: those of old that new lacks or changed.
ghost use Rattle.std.specs.Prelude.{◌≡◌};
ghost use Rattle.std.specs.Option.{option_copied};
ghost use Rattle.std.specs.Ordering.{int_eq};
ghost use Rattle.aidl_schema.specs.Broken.{C3, C17, C18, is_there_and};
ghost use Rattle.aidl_schema.specs.Names.{enumerators_of};
ghost use Rattle.compat_judge.specs.steps.Adds.{Adds};
ghost use Rattle.compat_judge.specs.steps.Steps.{AreBeside, breaks_at};
ghost use Rattle.compat_judge.specs.steps.Tests.{keeps_constant};

use crate::consts::same_const;
use crate::findings::Findings;
use crate::lookup::beside;
use crate::sides::Pair;
use aidl_schema::{Constant, Enumerator, Kind, Method, methods_of, same_base_code};

/// The enumerators of an enum; none of what is no enum.
pub fn enumerators_of(kind: &Kind) -> &[Enumerator]
    ensures { result.now ≡ enumerators_of kind.now }
{
    match kind {
        Kind::Enum(_, enumerators) => enumerators.as_slice(),
        _ => &[],
    }
}

/// Methods of old that aren't in new.
pub fn at_lost_methods(rule: u8, pair: &Pair<'_>, afters: &[Option<&Method>], found: &mut Findings)
    requires { AreBeside afters.now pair.now }
    ensures { Adds found.old found.new (breaks_at rule C3 pair.now) }
{
    let olds = methods_of(&pair.before.kind);
    for (i, method) in olds.iter().enumerate() {
        let kept = afters[i].is_some();
        found.member_if(rule, pair.name, &method.name, !kept);
    }
}

/// Enumerators of old that aren't in new with the same value.
pub fn at_lost_enumerators(rule: u8, pair: &Pair<'_>, found: &mut Findings)
    ensures { Adds found.old found.new (breaks_at rule C17 pair.now) }
{
    let olds = enumerators_of(&pair.before.kind);
    let news = enumerators_of(&pair.after.kind);
    let Ok(afters) = beside(found.alloc, olds, news) else {
        return found.lose();
    };
    for (i, enumerator) in olds.iter().enumerate() {
        let kept = is_enumerator_kept(enumerator, afters[i]);
        found.member_if(rule, pair.name, &enumerator.name, !kept);
    }
}

fn is_enumerator_kept(before: &Enumerator, after: Option<&Enumerator>) -> bool
    ensures { result ≡ is_there_and (λ y. int_eq before.now.value y.value) (option_copied after.entry) }
{
    match after {
        Some(after) => before.value == after.value,
        None => false,
    }
}

/// Constants of old that aren't in new with the same type and value.
pub fn at_lost_constants(rule: u8, pair: &Pair<'_>, found: &mut Findings)
    ensures { Adds found.old found.new (breaks_at rule C18 pair.now) }
{
    let olds = pair.before.constants.as_slice();
    let news = pair.after.constants.as_slice();
    let Ok(afters) = beside(found.alloc, olds, news) else {
        return found.lose();
    };
    for (i, constant) in olds.iter().enumerate() {
        let kept = is_constant_kept(constant, afters[i]);
        found.member_if(rule, pair.name, &constant.name, !kept);
    }
}

fn is_constant_kept(before: &Constant, after: Option<&Constant>) -> bool
    ensures { result ≡ is_there_and (keeps_constant before.now) (option_copied after.entry) }
{
    match after {
        Some(after) => {
            same_base_code(before.ty, after.ty) && same_const(&before.value, &after.value)
        }
        None => false,
    }
}
