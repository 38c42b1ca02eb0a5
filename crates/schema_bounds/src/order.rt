//! An order of the declarations by the defaults in their defaults, and the sizes that are found in this order.

use crate::containment::is_composite;
use crate::kind_size::kind_size;
use crate::measure::Measure;
use crate::places::{number_at, put};
use aidl_base::{OutOfMemory, Row};
use aidl_schema::{Base, Decl, Field, Kind, fields_of, is_one};
use graph_cycles::{find_cycles, is_set};
use std::alloc::Global;

/// The numbers of the declarations, each behind those whose defaults are in its own, and which have a default that holds
/// itself. Nobody has to believe it: sizes that are found in this order are looked at again.
pub struct Order {
    numbers: Vec<usize>,
    endless: Vec<bool>,
}

impl Drop for Order {
    fn drop(self) {
        let Order {
            numbers: _,
            endless: _,
        } = self;
    }
}

/// The order of the declarations.
pub fn default_order(alloc: Global, decls: &[Decl]) -> Result<Order, OutOfMemory> {
    let rows = needs_of(alloc, decls)?;
    let found = find_cycles(alloc, &rows)?;
    let numbers = numbers_by_rank(alloc, decls.len(), found.ranks.as_slice())?;
    Ok(Order {
        numbers,
        endless: found.on,
    })
}

// For each declaration those whose defaults are in its own.
fn needs_of(alloc: Global, decls: &[Decl]) -> Result<Vec<Row<u32>>, OutOfMemory> {
    let mut rows = Vec::with_capacity(alloc, decls.len())?;
    for decl in decls {
        rows.push(needed_by(alloc, decls, starting_fields(&decl.kind))?)?;
    }
    Ok(rows)
}

// The numbers of so many declarations, in the order of their ranks.
fn numbers_by_rank(
    alloc: Global,
    count: usize,
    ranks: &[usize],
) -> Result<Vec<usize>, OutOfMemory> {
    let mut numbers: Vec<usize> = (0..count).collect(alloc)?;
    numbers.sort_by_key(|number| number_at(ranks, *number, 0))?;
    Ok(numbers)
}

// The fields that a default has: all of a parcelable, the first of a union.
fn starting_fields(kind: &Kind) -> &[Field] {
    match (kind, fields_of(kind)) {
        (Kind::Union(_), [first, ..]) => std::slice::from_ref(first),
        (_, fields) => fields,
    }
}

// The declarations whose defaults are in those of fields.
fn needed_by(alloc: Global, decls: &[Decl], fields: &[Field]) -> Result<Row<u32>, OutOfMemory> {
    let mut row = Row::new(alloc);
    for field in fields {
        if let Some(number) = needed(decls, field) {
            row.push(number)?;
        }
    }
    Ok(row)
}

// The declaration whose default is in that of a field.
fn needed(decls: &[Decl], field: &Field) -> Option<u32> {
    let ty = field.ty;
    match (ty.base, &field.initial) {
        (Base::Named(number), None) if is_one(ty.shape) && !ty.nullable => {
            if is_composite(decls, number) {
                Some(number)
            } else {
                None
            }
        }
        _ => None,
    }
}

/// The sizes of the declarations' defaults, found in their order; where counting stops for those that hold themselves.
pub fn sizes_in_order(
    alloc: Global,
    measure: Measure,
    decls: &[Decl],
    order: &Order,
) -> Result<Vec<usize>, OutOfMemory> {
    let mut sizes = Vec::from_elem(alloc, measure.most(), decls.len())?;
    for number in &order.numbers {
        if let Some(decl) = decls.get(*number) {
            if !is_set(&order.endless, *number) {
                let size = kind_size(measure, &sizes, &decl.kind);
                put(&mut sizes, *number, size);
            }
        }
    }
    Ok(sizes)
}
