//! The size of one declaration's default, from given sizes of the defaults of all declarations.
ghost use Rattle.std.specs.Prelude.{◌≡◌, ◌-◌, map, min};
ghost use Rattle.schema_bounds.specs.steps.Measures as measures;

use crate::const_size::const_size;
use crate::measure::Measure;
use crate::places::number_at;
use aidl_schema::{AidlType, Base, Field, Kind, is_one};

/// The size of a declaration's default by sizes of the declarations' defaults, counted up to where counting stops.
pub fn kind_size(measure: Measure, sizes: &[usize], kind: &Kind) -> usize
    ensures { result ≡ min (measures.most measure) (measures.kind_size measure sizes.now kind.now) }
{
    match kind {
        Kind::Parcelable(fields) => fields_size(measure, sizes, fields.as_slice()) + 1,
        Kind::Union(fields) => first_size(measure, sizes, fields.as_slice()),
        Kind::Interface(_) => measure.leaf(),
        Kind::Enum(_, _) => measure.leaf(),
    }
}

// The size of fields beside each other, counted up to one less.
fn fields_size(measure: Measure, sizes: &[usize], fields: &[Field]) -> usize
    ensures { result ≡ min (measures.most measure - 1)
        (measures.total measure (map (λ f. measures.start_size measure sizes.now f) fields.now)) }
{
    let top = measure.most() - 1;
    let mut size = 0;
    for field in fields {
        size = measure.beside(top, size, start_size(measure, sizes, field));
    }
    size
}

// The size of a union's default, which has the first field.
#[tactic(auto, using(crate::proofs::Totals::one_above))]
fn first_size(measure: Measure, sizes: &[usize], fields: &[Field]) -> usize
    ensures { result ≡ min (measures.most measure)
        (measures.first_size measure sizes.now fields.now) }
{
    match fields {
        [] => 1,
        [first, ..] => start_size(measure, sizes, first).min(measure.most() - 1) + 1,
    }
}

// The size of what a field starts with, counted up to where counting stops.
fn start_size(measure: Measure, sizes: &[usize], field: &Field) -> usize
    ensures { result ≡ min (measures.most measure)
        (measures.start_size measure sizes.now field.now) }
{
    match &field.initial {
        Some(constant) => const_size(measure, measure.most(), constant),
        None => type_size(measure, sizes, field.ty).min(measure.most()),
    }
}

// The size of a type's default.
fn type_size(measure: Measure, sizes: &[usize], ty: AidlType) -> usize
    ensures { result ≡ measures.type_size measure sizes.now ty }
{
    if ty.nullable {
        measure.leaf()
    } else if is_one(ty.shape) {
        base_size(measure, sizes, ty.base)
    } else {
        1
    }
}

// The size of one value of a base.
fn base_size(measure: Measure, sizes: &[usize], base: Base) -> usize
    ensures { result ≡ measures.base_size measure sizes.now base }
{
    match base {
        Base::Named(number) => number_at(sizes, number as usize, measure.leaf()),
        _ => measure.leaf(),
    }
}
