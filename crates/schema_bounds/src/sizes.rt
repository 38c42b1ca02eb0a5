//! The sizes of the defaults of all declarations, counted until they are right.
ghost use Rattle.std.specs.Prelude.{◌≡◌, map, min, IfOk};
ghost use Rattle.schema_bounds.specs.steps.Measures as measures;

use crate::kind_size::kind_size;
use crate::measure::Measure;
use crate::order::{Order, sizes_in_order};
use aidl_base::OutOfMemory;
use aidl_schema::{Decl, law_default_sizes};
use std::alloc::Global;

/// The sizes of the declarations' defaults, right up to where counting stops. Those that were found in order are counted once
/// more; where that changes none of them they are right, and else each further count makes them right by one more.
pub fn sizes(
    alloc: Global,
    measure: Measure,
    decls: &[Decl],
    order: &Order,
) -> Result<Vec<usize>, OutOfMemory>
    ensures { IfOk result (λ sizes. measures.AreRight measure decls.now sizes.items
        (measures.most measure)) }
{
    let mut sizes = sizes_in_order(alloc, measure, decls, order)?;
    for count in 0..measure.most() {
        let next = counted(alloc, measure, decls, &sizes)?;
        if next.as_slice() == sizes.as_slice() {
            return Ok(next);
        }
        sizes = next;
    }
    Ok(sizes)
}

// The sizes of the declarations' defaults, by sizes of them.
fn counted(
    alloc: Global,
    measure: Measure,
    decls: &[Decl],
    sizes: &[usize],
) -> Result<Vec<usize>, OutOfMemory>
    ensures { IfOk result (λ next. next.items ≡ map (λ d. min
        (measures.most measure) (measures.kind_size measure sizes.now d.kind)) decls.now) }
{
    let mut next = Vec::with_capacity(alloc, decls.len())?;
    for decl in decls {
        next.push(kind_size(measure, sizes, &decl.kind))?;
    }
    Ok(next)
}
