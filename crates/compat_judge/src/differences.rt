//! The differences that are asked of two declarations, methods, arguments and fields.
ghost use Rattle.std.specs.Prelude.{◌≡◌};
ghost use Rattle.std.specs.Option.{option_copied};
ghost use Rattle.aidl_schema.specs.Broken.{is_there_and};
ghost use Rattle.compat_judge.specs.steps.Tests as tests;

use crate::alike::{same_marks, same_result, same_result_marks};
use crate::consts::{has_composite_default, same_defaults};
use crate::fields::{backing_code, parcelable_fields, union_fields};
use aidl_schema::{
    Arg, Decl, Field, Kind, Method, Schema, fields_of, same_flag, same_text, same_type,
};
use std::alloc::Global;

/// What is asked of two declarations of one name.
#[derive(Clone, Copy)]
pub enum DeclTest {
    FewerFields,
    Fixed,
    FewerAlternatives,
    Backings,
    Stability,
}

/// What is asked of two methods of one name.
#[derive(Clone, Copy)]
pub enum MethodTest {
    Ids,
    Results,
    Counts,
    Oneway,
    Marks,
}

/// What is asked of two arguments at one position.
#[derive(Clone, Copy)]
pub enum ArgumentTest {
    Types,
    Ways,
    Marks,
}

/// What is asked of two fields at one position.
#[derive(Clone, Copy)]
pub enum FieldTest {
    Names,
    Types,
    Defaults,
    Alternatives,
    Marks,
}

/// Whether the declarations differ in what is asked.
pub fn decl_breaks(test: DeclTest, before: &Decl, after: &Decl) -> bool
    ensures { result ≡ tests.decl_breaks test before.now after.now }
{
    match test {
        DeclTest::FewerFields => parcelable_fields(&after.kind).len()
            < parcelable_fields(&before.kind).len(),
        // A parcelable or union has `@FixedSize` in one schema alone; or in both, and new has more fields.
        DeclTest::Fixed => {
            matches!(before.kind, Kind::Parcelable(_) | Kind::Union(_))
                && (!same_flag(before.fixed, after.fixed)
                    || ((before.fixed && after.fixed)
                        && fields_of(&before.kind).len() < fields_of(&after.kind).len()))
        }
        DeclTest::FewerAlternatives => union_fields(&after.kind).len()
            < union_fields(&before.kind).len(),
        DeclTest::Backings => backing_code(&before.kind) != backing_code(&after.kind),
        DeclTest::Stability => !same_flag(before.vintf, after.vintf),
    }
}

/// Whether there is a method beside this one, and they differ in what is asked.
pub fn method_breaks(
    test: MethodTest,
    old: &Schema,
    before: &Method,
    new: &Schema,
    after: Option<&Method>,
) -> bool
    ensures { result ≡ is_there_and
        (tests.method_breaks test old.now.decls new.now.decls before.now) (option_copied after.entry) }
{
    let Some(after) = after else {
        return false;
    };
    match test {
        MethodTest::Ids => before.id != after.id,
        MethodTest::Results => !same_result(old, before.result, new, after.result),
        MethodTest::Counts => before.args.len() != after.args.len(),
        MethodTest::Oneway => !same_flag(before.oneway, after.oneway),
        MethodTest::Marks => !same_result_marks(before.result, after.result),
    }
}

/// Whether the arguments differ in what is asked.
pub fn argument_breaks(
    test: ArgumentTest,
    old: &Schema,
    before: &Arg,
    new: &Schema,
    after: &Arg,
) -> bool
    ensures { result ≡ tests.argument_breaks test old.now.decls new.now.decls before.now after.now }
{
    match test {
        ArgumentTest::Types => !same_type(old, before.ty, new, after.ty),
        ArgumentTest::Ways => before.way != after.way,
        ArgumentTest::Marks => !same_marks(before.ty, after.ty),
    }
}

/// Whether the fields differ in what is asked.
pub fn field_breaks(
    alloc: Global,
    test: FieldTest,
    old: &Schema,
    before: &Field,
    new: &Schema,
    after: &Field,
) -> bool
    ensures { result ≡ tests.field_breaks test old.now.decls new.now.decls before.now after.now }
{
    match test {
        FieldTest::Names => !same_text(&before.name.0, &after.name.0),
        FieldTest::Types => !same_type(old, before.ty, new, after.ty),
        // The types are the same and the defaults differ, where neither is a record or an alternative.
        FieldTest::Defaults => {
            same_type(old, before.ty, new, after.ty)
                && (!(has_composite_default(old, before.ty) || has_composite_default(new, after.ty))
                    && !same_defaults(alloc, old, before, new, after))
        }
        FieldTest::Alternatives => {
            !same_text(&before.name.0, &after.name.0) || !same_type(old, before.ty, new, after.ty)
        }
        FieldTest::Marks => !same_marks(before.ty, after.ty),
    }
}
