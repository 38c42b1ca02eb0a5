//! The check of a certificate: ranks and marks against the edges of a graph.
ghost use Rattle.std.specs.Prelude.{◌≡◌, ℕ, ◌<◌, ◌≤◌, false, slice_index, IsTrue, Contains};
ghost use Rattle.graph_cycles.specs.Paths.{flag, targets};
ghost use Rattle.graph_cycles.specs.steps.Marks.{IsCertificate};

use crate::marks::{is_set, number_at, targets_of};
use aidl_base::Row;

/// Whether the edges of one node are as a certificate wants them.
fn node_holds(edges: &[Row<u32>], ranks: &[usize], on: &[bool], node: usize) -> bool
    ensures { IsTrue result →
        (n : ℕ) → Contains (targets edges.now node) n →
        (slice_index ranks.now n ≤ slice_index ranks.now node)
        × (flag on.now node ≡ false → slice_index ranks.now n < slice_index ranks.now node) }
{
    let rank = number_at(ranks, node);
    let marked = is_set(on, node);
    for target in targets_of(edges, node) {
        let other = number_at(ranks, *target as usize);
        if other > rank || !marked && other == rank {
            return false;
        }
    }
    true
}

/// Whether the ranks show that no node without a mark is on a cycle.
pub fn is_certified(edges: &[Row<u32>], ranks: &[usize], on: &[bool]) -> bool
    ensures { IsTrue result → IsCertificate (targets edges.now) ranks.now on.now }
{
    for node in 0..edges.len() {
        if !node_holds(edges, ranks, on, node) {
            return false;
        }
    }
    true
}
