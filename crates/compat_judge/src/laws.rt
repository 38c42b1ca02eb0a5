//! A law of the list of broken rules.
ghost use Rattle.std.specs.Prelude.{◌↔◌};
ghost use Rattle.std.specs.List.Sorted.{IsStrictlySortedBy};
ghost use Rattle.aidl_schema.specs.Broken.{Break, break_order, breaks, broken};
ghost use Rattle.aidl_schema.specs.Unbroken.{Has};

use aidl_schema::Decl;

/// Broken rules ascend strictly, by the bytes of the place and then by rule, so a rule and place stand there once; and they are
/// those that are broken declaration by declaration: none is lost and none is added.
pub fn law_broken_in_order(old: &[Decl], new: &[Decl])
    ensures sorted { IsStrictlySortedBy break_order (broken old.now new.now) }
    ensures same { (b : Break) → Has (broken old.now new.now) b ↔ Has (breaks old.now new.now) b }
{}
