//! The nodes on cycles, by a certified search or else by a slow one.
ghost use Rattle.std.specs.Prelude.{◌≡◌, length, IfOk, IfSome, vec_len};
ghost use Rattle.graph_cycles.specs.Paths.{Descends, TellsCycles, targets};
ghost use Rattle.graph_cycles.specs.steps.Marks.{OnCycles, AfterRoots, BeforeRoots};

use crate::certificate::is_certified;
use crate::components::grouped;
use crate::depth_first::depth_first;
use crate::marking::{mark_after, mark_before, mark_both};
use crate::marks::{no_flags, number_at};
use crate::slow::cycles_slowly;
use aidl_base::{OutOfMemory, Row};
use std::alloc::Global;

/// Which nodes lie on a cycle, and a rank for each node. Along an edge from a node that lies on none the rank falls, so in
/// the order of their ranks such nodes stand behind all that they lead to. A node beyond the last rank has rank 0.
#[derive(Drop)]
pub struct Cycles {
    pub on: Vec<bool>,
    pub ranks: Vec<usize>,
}

/// Which nodes lie on a cycle: those from which a path of one edge or more leads back. Node n leads to each number of the row
/// at n; a number beyond the last row is a node that leads nowhere. In time linear in nodes and edges where the search gives
/// a certificate, which it always did so far; that it does isn't proved, and a slow search answers where it doesn't.
pub fn find_cycles(alloc: Global, edges: &[Row<u32>]) -> Result<Cycles, OutOfMemory>
    ensures len { IfOk result (λ found. vec_len found.on ≡ length edges.now) }
    ensures exact { IfOk result (λ found. TellsCycles (targets edges.now) found.on.items) }
    ensures ranks { IfOk result (λ found. Descends
        (targets edges.now) found.on.items found.ranks.items) }
{
    match certified_cycles(alloc, edges)? {
        Some(found) => Ok(found),
        None => cycles_slowly(alloc, edges),
    }
}

// Which nodes lie on a cycle, with ranks, where the search gave a certificate for it.
fn certified_cycles(alloc: Global, edges: &[Row<u32>]) -> Result<Option<Cycles>, OutOfMemory>
    ensures len { IfOk result (λ given. IfSome given (λ found. vec_len found.on
        ≡ length edges.now)) }
    ensures exact { IfOk result (λ given. IfSome given
        (λ found. TellsCycles (targets edges.now) found.on.items)) }
    ensures ranks { IfOk result (λ given. IfSome given
        (λ found. Descends (targets edges.now) found.on.items found.ranks.items)) }
{
    let visited = depth_first(alloc, edges)?;
    let found = grouped(alloc, edges, &visited.left)?;
    let on = marks_on(alloc, edges, &found.roots, &visited.entered, &found.order)?;
    if is_certified(edges, &found.ranks, &on) {
        return Ok(Some(Cycles {
            on,
            ranks: found.ranks,
        }));
    }
    Ok(None)
}

// The nodes to which a path leads from their root and from which one leads back to it.
fn marks_on(
    alloc: Global,
    edges: &[Row<u32>],
    roots: &[usize],
    entered: &[usize],
    order: &[usize],
) -> Result<Vec<bool>, OutOfMemory>
    ensures len { IfOk result (λ on. vec_len on ≡ length edges.now) }
    ensures on { IfOk result (λ on. OnCycles (targets edges.now) on.items) }
{
    let after = marks_after(alloc, edges, roots, entered)?;
    let before = marks_before(alloc, edges, roots, order)?;
    let mut on = no_flags(alloc, edges.len())?;
    mark_both(edges, &after, &before, &mut on);
    Ok(on)
}

// Marks nodes to which a path leads from their root, in the order in which they were entered.
fn marks_after(
    alloc: Global,
    edges: &[Row<u32>],
    roots: &[usize],
    order: &[usize],
) -> Result<Vec<bool>, OutOfMemory>
    ensures { IfOk result (λ marks. AfterRoots (targets edges.now) roots.now marks.items) }
{
    let mut marks = no_flags(alloc, edges.len())?;
    for node in order {
        mark_after(edges, roots, *node, &mut marks);
    }
    Ok(marks)
}

// Marks nodes from which a path leads to their root, in the order of the components; roots last.
fn marks_before(
    alloc: Global,
    edges: &[Row<u32>],
    roots: &[usize],
    order: &[usize],
) -> Result<Vec<bool>, OutOfMemory>
    ensures { IfOk result (λ marks. BeforeRoots (targets edges.now) roots.now marks.items) }
{
    let mut marks = no_flags(alloc, edges.len())?;
    mark_each_before(edges, roots, order, &mut marks);
    mark_each_before(edges, roots, order, &mut marks);
    Ok(marks)
}

fn mark_each_before(edges: &[Row<u32>], roots: &[usize], order: &[usize], marks: &mut [bool])
    requires { BeforeRoots (targets edges.now) roots.now marks.old }
    ensures { BeforeRoots (targets edges.now) roots.now marks.new }
{
    for node in order {
        mark_before(edges, roots, *node, marks);
    }
}
