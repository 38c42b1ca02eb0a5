//! The slow search for nodes on cycles, one search from each node.
ghost use Rattle.std.specs.Prelude.{◌≡◌, ℕ, ◌+◌, ◌<◌, ◌↔◌, true, false, length, IfOk, IfSome, IfNone, vec_len, IsTrue};
ghost use Rattle.graph_cycles.specs.Paths.{Descends, IsEdge, Leads, TellsCycles, flag, targets};
ghost use Rattle.graph_cycles.specs.steps.Marks.{AfterNode, IsClosed, IsRank, unmarked};

use crate::cycles::Cycles;
use crate::marks::{is_set, no_flags, set, targets_of};
use aidl_base::{OutOfMemory, Row};
use std::alloc::Global;

// Whether a node leads to itself, and how many nodes it leads to, itself counted.
#[derive(Clone, Copy)]
struct Reach {
    back: bool,
    nodes: usize,
}

/// Which nodes lie on a cycle, by a search from each node; its rank is how many nodes that finds. It takes far longer than
/// linear time.
pub fn cycles_slowly(alloc: Global, edges: &[Row<u32>]) -> Result<Cycles, OutOfMemory>
    ensures len { IfOk result (λ found. vec_len found.on ≡ length edges.now) }
    ensures exact { IfOk result (λ found. TellsCycles (targets edges.now) found.on.items) }
    ensures ranks { IfOk result (λ found. Descends
        (targets edges.now) found.on.items found.ranks.items) }
{
    let mut on = Vec::new(alloc);
    let mut ranks = Vec::new(alloc);
    for node in 0..edges.len() {
        let reach = reach_of(alloc, edges, node)?;
        on.push(reach.back)?;
        ranks.push(reach.nodes)?;
    }
    Ok(Cycles { on, ranks })
}

// A target of a node that has a flag and no mark.
fn unmarked_target(edges: &[Row<u32>], node: usize, marks: &[bool]) -> Option<usize>
    ensures some { IfSome result (λ to. IsEdge (targets edges.now) node to
        × flag marks.now to ≡ false × to < length marks.now) }
    ensures none { IfNone result ((n : ℕ) → IsEdge (targets edges.now) node n
        → n < length marks.now → flag marks.now n ≡ true) }
{
    for target in targets_of(edges, node) {
        let to = *target as usize;
        if to < marks.len() && !is_set(marks, to) {
            return Some(to);
        }
    }
    None
}

// A node without a mark to which an edge leads from the start or from a marked node.
fn open_target(edges: &[Row<u32>], start: usize, marks: &[bool]) -> Option<usize>
    requires marks { AfterNode (targets edges.now) start marks.now }
    requires len { length marks.now ≡ length edges.now }
    ensures some { IfSome result (λ to. Leads (targets edges.now) start to
        × flag marks.now to ≡ false × to < length marks.now) }
    ensures none { IfNone result (IsClosed (targets edges.now) start marks.now) }
{
    if let Some(to) = unmarked_target(edges, start, marks) {
        return Some(to);
    }
    for node in 0..edges.len() {
        if is_set(marks, node) {
            if let Some(to) = unmarked_target(edges, node, marks) {
                return Some(to);
            }
        }
    }
    None
}

// Marks all nodes that the start leads to.
fn mark_all(edges: &[Row<u32>], start: usize, marks: &mut [bool])
    requires marks { AfterNode (targets edges.now) start marks.old }
    requires len { length marks.old ≡ length edges.now }
    ensures marks { AfterNode (targets edges.now) start marks.new }
    ensures closed { IsClosed (targets edges.now) start marks.new }
    ensures len { length marks.new ≡ length marks.old }
{
    while let Some(to) = open_target(edges, start, marks) {
        set(marks, to);
    }
}

// How many flags are set.
fn marked(marks: &[bool]) -> usize
    ensures { result + unmarked marks.now ≡ length marks.now }
{
    let mut count: usize = 0;
    for mark in marks {
        if *mark {
            count += 1;
        }
    }
    count
}

// What a node leads to, by a search that begins with no marks.
fn reach_by(edges: &[Row<u32>], node: usize, marks: &mut [bool]) -> Reach
    requires node { node < length edges.now }
    requires none { (n : ℕ) → flag marks.old n ≡ false }
    requires len { length marks.old ≡ length edges.now }
    ensures back { IsTrue result.back ↔ Leads (targets edges.now) node node }
    ensures nodes { IsRank edges.now node result.nodes }
{
    mark_all(edges, node, marks);
    let back = is_set(marks, node);
    set(marks, node);
    Reach {
        back,
        nodes: marked(marks),
    }
}

// What a node leads to.
fn reach_of(alloc: Global, edges: &[Row<u32>], node: usize) -> Result<Reach, OutOfMemory>
    requires { node < length edges.now }
    ensures back { IfOk result (λ reach. IsTrue reach.back ↔ Leads (targets edges.now) node node) }
    ensures nodes { IfOk result (λ reach. IsRank edges.now node reach.nodes) }
{
    let mut marks = no_flags(alloc, edges.len())?;
    Ok(reach_by(edges, node, &mut marks))
}
