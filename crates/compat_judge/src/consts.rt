//! Sameness of constants and of the defaults of fields, and which fields may not be added.
ghost use Rattle.std.specs.Prelude.{◌≡◌, ◌==◌, pos, map, not, ◌&&◌};
ghost use Rattle.std.specs.List.{list_any};
ghost use Rattle.std.specs.Option.{option_copied};
ghost use Rattle.std.specs.Ordering.{int_eq};
ghost use Rattle.aidl_schema.specs.Broken as broken;
ghost use Rattle.aidl_schema.specs.Constants.{is_enumerator};
ghost use Rattle.aidl_schema.specs.Containment.{is_composite};
ghost use Rattle.aidl_schema.specs.Seen.{seen};
ghost use Rattle.aidl_schema.specs.Types.{form_of};

use aidl_base::{Const, Row, Text};
use aidl_schema::{
    AidlType, Base, Enumerator, Field, Form, Kind, Schema, Shape, form_in, is_one_value, same_flag,
    same_text,
};
use std::alloc::Global;

/// Whether two constants are the same.
#[cycle(constant)]
pub fn same_const(before: &Const, after: &Const) -> bool
    ensures { result ≡ broken.same_const before.now after.now }
{
    match (before, after) {
        (Const::Truth(old), Const::Truth(new)) => same_flag(*old, *new),
        (Const::Number(old), Const::Number(new)) => *old == *new,
        (Const::Text(old), Const::Text(new)) => same_text(old, new),
        (Const::Members(olds), Const::Members(news)) => {
            same_consts(olds.as_slice(), news.as_slice())
        }
        _ => false,
    }
}

#[cycle(constant)]
fn same_consts(olds: &[Const], news: &[Const]) -> bool
    ensures { result ≡ broken.pass_each (map broken.same_const olds.now) news.now }
{
    if olds.len() != news.len() {
        return false;
    }
    for i in 0..olds.len() {
        if !same_const(&olds[i], &news[i]) {
            return false;
        }
    }
    true
}

// A type's default, where None is null; and of a parcelable or a union, which has no constant.
fn zero_in(alloc: Global, schema: &Schema, ty: AidlType) -> Option<Const>
    ensures { result ≡ broken.zero_in schema.now.decls ty }
{
    if ty.nullable {
        return None;
    }
    match ty.shape {
        Shape::One => match form_in(schema, ty.base) {
            Form::Truth => Some(Const::Truth(false)),
            Form::Text => Some(Const::Text(Text::empty())),
            Form::Byte | Form::Char | Form::Int | Form::Long => Some(Const::Number(0)),
            _ => None,
        },
        _ => Some(Const::Members(Row::new(alloc))),
    }
}

// A field's initializer, or else its type's default.
fn default_by<'a>(initial: &'a Option<Const>, zero: &'a Option<Const>) -> Option<&'a Const>
    ensures { option_copied result ≡ broken.default_by initial.now zero.now }
{
    match initial {
        Some(constant) => Some(constant),
        None => zero.as_ref(),
    }
}

fn same_default(before: Option<&Const>, after: Option<&Const>) -> bool
    ensures { result ≡ broken.same_default (option_copied before.entry) (option_copied after.entry) }
{
    match (before, after) {
        (None, None) => true,
        (Some(old), Some(new)) => same_const(old, new),
        _ => false,
    }
}

/// Whether two fields have the same default.
pub fn same_defaults(
    alloc: Global,
    old: &Schema,
    before: &Field,
    new: &Schema,
    after: &Field,
) -> bool
    ensures { result ≡ broken.same_default (broken.default_in old.now.decls before.now)
        (broken.default_in new.now.decls after.now) }
{
    let zero_before = zero_in(alloc, old, before.ty);
    let zero_after = zero_in(alloc, new, after.ty);
    same_default(
        default_by(&before.initial, &zero_before),
        default_by(&after.initial, &zero_after),
    )
}

fn is_composite(form: &Form<'_>) -> bool
    ensures { result ≡ is_composite (seen form.now) }
{
    matches!(form, Form::Parcelable(_) | Form::Union(_))
}

/// Whether the default is a record or an alternative.
pub fn has_composite_default(schema: &Schema, ty: AidlType) -> bool
    ensures { result ≡ broken.has_composite_default schema.now.decls ty }
{
    is_one_value(ty) && is_composite(&form_in(schema, ty.base))
}

// An enum that has no enumerator of value 0.
fn is_enum_without_zero(schema: &Schema, base: Base) -> bool
    ensures { result ≡ broken.is_enum_without_zero schema.now.decls base }
{
    match base {
        Base::Named(number) => match schema.decls.as_slice().get(number as usize) {
            Some(decl) => match &decl.kind {
                Kind::Enum(_, enumerators) => !has_zero(enumerators.as_slice()),
                _ => false,
            },
            None => false,
        },
        _ => false,
    }
}

fn has_zero(enumerators: &[Enumerator]) -> bool
    ensures { result ≡ list_any (λ x. int_eq x.value (pos 0)) enumerators.now }
{
    enumerators.iter().any(|enumerator| enumerator.value == 0)
}

/// Whether a field may not be added at the end of a parcelable: its default is a record or an alternative, or the 0 of an
/// enum that has no such enumerator.
pub fn is_refused_addition(schema: &Schema, field: &Field) -> bool
    ensures { result ≡ broken.is_refused_addition schema.now.decls field.now }
{
    is_one_value(field.ty)
        && (is_composite(&form_in(schema, field.ty.base))
            || (is_enum_without_zero(schema, field.ty.base) && field.initial.is_none()))
}
