//! The fields of a declaration by its kind, and the backings of enums.
ghost use Rattle.std.specs.Prelude.{◌≡◌};
ghost use Rattle.aidl_schema.specs.Broken as broken;
ghost use Rattle.compat_judge.specs.steps.Tests as tests;

use crate::differences::FieldTest;
use aidl_schema::{Backing, Field, Kind, fields_of};

/// The fields of a parcelable; none of what is no parcelable.
pub fn parcelable_fields(kind: &Kind) -> &[Field]
    ensures { result.now ≡ broken.parcelable_fields kind.now }
{
    match kind {
        Kind::Parcelable(fields) => fields.as_slice(),
        _ => &[],
    }
}

/// The fields of a union; none of what is no union.
pub fn union_fields(kind: &Kind) -> &[Field]
    ensures { result.now ≡ broken.union_fields kind.now }
{
    match kind {
        Kind::Union(fields) => fields.as_slice(),
        _ => &[],
    }
}

// The fields whose defaults are seen: all of a parcelable, the first of a union.
fn fields_with_default(kind: &Kind) -> &[Field]
    ensures { result.now ≡ broken.fields_with_default kind.now }
{
    match kind {
        Kind::Parcelable(fields) => fields.as_slice(),
        Kind::Union(fields) => &fields.as_slice()[..fields.len().min(1)],
        _ => &[],
    }
}

/// The fields of which a test is asked.
pub fn fields_asked(test: FieldTest, kind: &Kind) -> &[Field]
    ensures { result.now ≡ tests.fields_asked test kind.now }
{
    match test {
        FieldTest::Names | FieldTest::Types => parcelable_fields(kind),
        FieldTest::Defaults => fields_with_default(kind),
        FieldTest::Alternatives => union_fields(kind),
        FieldTest::Marks => fields_of(kind),
    }
}

/// A number for the backing of an enum.
pub fn backing_code(kind: &Kind) -> u8
    ensures { result ≡ broken.backing_code kind.now }
{
    match kind {
        Kind::Enum(Backing::Byte, _) => 1,
        Kind::Enum(Backing::Int, _) => 2,
        Kind::Enum(Backing::Long, _) => 3,
        _ => 0,
    }
}
