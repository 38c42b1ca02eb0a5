//! Marks on the nodes that are led to from their root, or lead to it.
ghost use Rattle.std.specs.Prelude.{◌≡◌, length, slice_index, IsTrue};
ghost use Rattle.graph_cycles.specs.Paths.{Leads, targets};
ghost use Rattle.graph_cycles.specs.steps.Marks.{OnCycles, AfterRoots, BeforeRoots, HaveRoots, IsOrLeads};

use crate::marks::{is_set, number_at, set, targets_of};
use aidl_base::Row;

/// Marks each target of a node with the same root, where the root leads to the node.
fn mark_targets(edges: &[Row<u32>], roots: &[usize], node: usize, after: &mut [bool])
    requires starts { IsOrLeads (targets edges.now) (slice_index roots.now node) node }
    requires marks { AfterRoots (targets edges.now) roots.now after.old }
    ensures marks { AfterRoots (targets edges.now) roots.now after.new }
    ensures len { length after.new ≡ length after.old }
{
    let root = number_at(roots, node);
    for target in targets_of(edges, node) {
        let to = *target as usize;
        if number_at(roots, to) == root {
            set(after, to);
        }
    }
}

/// Marks each target of a node with the same root, where the node is its root or marked.
pub fn mark_after(edges: &[Row<u32>], roots: &[usize], node: usize, after: &mut [bool])
    requires marks { AfterRoots (targets edges.now) roots.now after.old }
    ensures marks { AfterRoots (targets edges.now) roots.now after.new }
    ensures len { length after.new ≡ length after.old }
{
    if number_at(roots, node) == node || is_set(after, node) {
        mark_targets(edges, roots, node, after);
    }
}

/// Whether an edge leads from a node to its root, or to a node that is marked and has the same root.
fn leads_to_root(edges: &[Row<u32>], roots: &[usize], node: usize, before: &[bool]) -> bool
    requires marks { BeforeRoots (targets edges.now) roots.now before.now }
    ensures { IsTrue result → Leads (targets edges.now) node (slice_index roots.now node) }
{
    let root = number_at(roots, node);
    for target in targets_of(edges, node) {
        let to = *target as usize;
        if to == root {
            return true;
        }
        if number_at(roots, to) == root && is_set(before, to) {
            return true;
        }
    }
    false
}

/// Marks a node where it leads to its root, or to a node that is marked and has the same root.
pub fn mark_before(edges: &[Row<u32>], roots: &[usize], node: usize, before: &mut [bool])
    requires marks { BeforeRoots (targets edges.now) roots.now before.old }
    ensures marks { BeforeRoots (targets edges.now) roots.now before.new }
    ensures len { length before.new ≡ length before.old }
{
    if leads_to_root(edges, roots, node, before) {
        set(before, node);
    }
}

/// Marks the nodes that both lead to their root and are led to from it, whichever the roots are.
pub fn mark_both(edges: &[Row<u32>], after: &[bool], before: &[bool], on: &mut [bool])
    requires roots { HaveRoots (targets edges.now) after.now before.now }
    requires on { OnCycles (targets edges.now) on.old }
    ensures on { OnCycles (targets edges.now) on.new }
    ensures len { length on.new ≡ length on.old }
{
    for node in 0..edges.len() {
        if is_set(after, node) && is_set(before, node) {
            set(on, node);
        }
    }
}
