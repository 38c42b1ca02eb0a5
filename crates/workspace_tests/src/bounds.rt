//! The bounds of declarations that form chains as long as may be.

use crate::same::same;
use aidl_base::{DottedName, Ident, OutOfMemory, Parts, Row, Text};
use aidl_schema::{AidlType, Base, Decl, Field, Kind, Shape};
use schema_bounds::{Bound, bounds};
use std::alloc::Global;

// A record with as many fields, each of which is the record of that number.
fn record(alloc: Global, number: u32, count: usize) -> Result<Decl, OutOfMemory> {
    let mut fields = Row::new(alloc);
    for _ in 0..count {
        fields.push(Field {
            name: Ident(Text::empty()),
            ty: AidlType {
                base: Base::Named(number),
                shape: Shape::One,
                nullable: false,
                heap: false,
                utf8: false,
            },
            initial: None,
        })?;
    }
    Ok(Decl {
        name: DottedName(Parts::from_row(Row::new(alloc))),
        outer: None,
        kind: Kind::Parcelable(fields),
        vintf: false,
        fixed: false,
        constants: Row::new(alloc),
    })
}

// How many of 16,384 records have a bound, where each holds the next so many times and the last holds that of a number.
fn count(alloc: Global, times: usize, last: u32, wanted: Bound) -> Result<usize, OutOfMemory> {
    let mut decls = Vec::new(alloc);
    for number in 1..16_384u32 {
        decls.push(record(alloc, number, times)?)?;
    }
    decls.push(record(alloc, last, times)?)?;
    let bounds = bounds(alloc, &decls[..decls.len().min(16_384)])?;
    Ok(bounds.iter().filter(|bound| **bound == wanted).count())
}

// The last holds a number of no declaration: its default has depth 1 and, for each field, a null value.
#[test]
fn long_chains_are_judged_from_their_ends(rt: HostRuntime) {
    let alloc = rt.alloc();
    // depths 1 to 32 of 16,384
    same(&rt, count(alloc, 1, 99_999, Bound::Within), Ok(32));
    same(&rt, count(alloc, 1, 99_999, Bound::TooLarge), Ok(16_352));
    // 3, 7, 15, 31, 63, 127, 255 and 511 nodes
    same(&rt, count(alloc, 2, 99_999, Bound::Within), Ok(8));
    // a ring, and a chain into a ring of one
    same(&rt, count(alloc, 2, 0, Bound::HoldsItself), Ok(16_384));
    same(&rt, count(alloc, 1, 16_383, Bound::Within), Ok(16_383));
}
