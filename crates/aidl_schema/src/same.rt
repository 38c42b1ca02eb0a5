//! Sameness of texts, bases, types, kinds and flags, of one schema and another.
ghost use Rattle.std.specs.Prelude.{◌≡◌, ◌==◌};
ghost use Rattle.aidl_schema.specs.Broken.{kind_code};
ghost use Rattle.aidl_schema.specs.Same as meant;
ghost use Rattle.std.specs.Option.{option_copied};

use crate::schema::{AidlType, Base, Decl, Kind, Schema, Shape};
use aidl_base::{Ident, Text};

/// Whether two texts are the same.
pub fn same_text(a: &Text, b: &Text) -> bool
    ensures { result ≡ meant.same_text a.now b.now }
{
    a.as_str() == b.as_str()
}

fn same_idents(a: &[Ident], b: &[Ident]) -> bool
    ensures { result ≡ meant.same_idents a.now b.now }
{
    if a.len() != b.len() {
        return false;
    }
    for i in 0..a.len() {
        if !same_text(&a[i].0, &b[i].0) {
            return false;
        }
    }
    true
}

fn same_decl(d: Option<&Decl>, e: Option<&Decl>) -> bool
    ensures { result ≡ meant.same_decl (option_copied d.entry) (option_copied e.entry) }
{
    match (d, e) {
        (Some(d), Some(e)) => same_idents(d.name.0.as_slice(), e.name.0.as_slice()),
        _ => false,
    }
}

/// Whether a base is declared.
pub fn is_named(base: Base) -> bool
    ensures { result ≡ meant.is_named base }
{
    matches!(base, Base::Named(_))
}

/// Whether two bases are the same built-in one, or both declared.
pub fn same_base_code(b: Base, c: Base) -> bool
    ensures { result ≡ (meant.base_code b == meant.base_code c) }
{
    base_code(b) == base_code(c)
}

// A number for each built-in base, and one for all declared ones.
fn base_code(base: Base) -> u8
    ensures { result ≡ meant.base_code base }
{
    match base {
        Base::Boolean => 0,
        Base::Byte => 1,
        Base::Char => 2,
        Base::Int => 3,
        Base::Long => 4,
        Base::Text => 5,
        Base::Named(_) => 6,
    }
}

fn same_base(old: &Schema, b: Base, new: &Schema, c: Base) -> bool
    ensures { result ≡ meant.same_base old.now.decls b new.now.decls c }
{
    match (b, c) {
        (Base::Named(m), Base::Named(n)) => same_decl(
            old.decls.as_slice().get(m as usize),
            new.decls.as_slice().get(n as usize),
        ),
        _ => same_base_code(b, c),
    }
}

fn same_shape(a: Shape, b: Shape) -> bool
    ensures { result ≡ (meant.shape_code a == meant.shape_code b) }
{
    a == b
}

/// Whether two types are the same: the base by its canonical name, the shape and the nullable flag.
pub fn same_type(old: &Schema, t: AidlType, new: &Schema, u: AidlType) -> bool
    ensures { result ≡ meant.same old.now.decls t new.now.decls u }
{
    same_base(old, t.base, new, u.base)
        && (same_shape(t.shape, u.shape) && same_flag(t.nullable, u.nullable))
}

/// Whether two declarations are of one kind.
pub fn same_kind(a: &Kind, b: &Kind) -> bool
    ensures { result ≡ (kind_code a.now == kind_code b.now) }
{
    match (a, b) {
        (Kind::Interface(_), Kind::Interface(_)) => true,
        (Kind::Parcelable(_), Kind::Parcelable(_)) => true,
        (Kind::Union(_), Kind::Union(_)) => true,
        (Kind::Enum(_, _), Kind::Enum(_, _)) => true,
        _ => false,
    }
}

/// Whether both are true or both false.
pub fn same_flag(a: bool, b: bool) -> bool
    ensures { result ≡ meant.same_bool a b }
{
    a == b
}
