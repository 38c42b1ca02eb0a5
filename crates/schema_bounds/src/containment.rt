//! The containment of declarations: which parcelables and unions each one has in its fields.
ghost use Rattle.std.specs.Prelude.{◌≡◌, Some, map, IfOk};
ghost use Rattle.aidl_schema.specs.declared.schema.Base.TheVariants as base;
ghost use Rattle.aidl_schema.specs.Containment as containment;
ghost use Rattle.aidl_schema.specs.Types as types;
ghost use Rattle.schema_bounds.specs.steps.Hubs.{listed};

use aidl_base::{OutOfMemory, Row};
use aidl_schema::{Base, Decl, Field, Kind, fields_of, is_one};
use std::alloc::Global;

/// What each declaration contains, by their numbers.
pub fn containment(alloc: Global, decls: &[Decl]) -> Result<Vec<Row<u32>>, OutOfMemory>
    ensures { IfOk result (λ rows. rows.items
        ≡ map (λ d. containment.contained_by_decl decls.now (Some d)) decls.now) }
{
    let mut rows = Vec::with_capacity(alloc, decls.len())?;
    for decl in decls {
        rows.push(contained_by_decl(alloc, decls, decl)?)?;
    }
    Ok(rows)
}

fn contained_by_decl(alloc: Global, decls: &[Decl], decl: &Decl) -> Result<Row<u32>, OutOfMemory>
    ensures { IfOk result (λ row. row ≡ containment.contained_by_decl decls.now (Some decl.now)) }
{
    let mut row = Row::new(alloc);
    for field in fields_of(&decl.kind) {
        if let Some(number) = contained_by(decls, field) {
            row.push(number)?;
        }
    }
    Ok(row)
}

// What a field contains.
fn contained_by(decls: &[Decl], field: &Field) -> Option<u32>
    ensures { listed result ≡ containment.contained_by decls.now field.now }
{
    let ty = field.ty;
    match ty.base {
        Base::Named(number) if is_one(ty.shape) && !ty.heap && is_composite(decls, number) => {
            Some(number)
        }
        _ => None,
    }
}

/// Whether the number is that of a parcelable or union.
pub fn is_composite(decls: &[Decl], number: u32) -> bool
    ensures { result ≡ containment.is_composite (types.form_of decls.now (base.Named number)) }
{
    match decls.get(number as usize) {
        Some(decl) => matches!(decl.kind, Kind::Parcelable(_) | Kind::Union(_)),
        None => false,
    }
}
