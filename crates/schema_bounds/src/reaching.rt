//! Which nodes of a graph reach a cycle, found by adding one node to the graph.
ghost use Rattle.std.specs.Prelude.{◌≡◌, ℕ, ◌≤◌, ◌<◌, ◌++◌, ◌↔◌, IsTrue, length, map, IfOk, vec_len};
ghost use Rattle.std.specs.List.{range_with_len};
ghost use Rattle.graph_cycles.specs.Paths.{TellsCycles, flag, targets};
ghost use Rattle.schema_bounds.specs.steps.Hubs as hubs;

use aidl_base::{OutOfMemory, Row};
use graph_cycles::{find_cycles, is_set, targets_of};
use std::alloc::Global;

/// Which nodes reach a cycle, by those that lie on one. With a hub, to which each of these leads and which leads to all nodes,
/// a node lies on a cycle exactly where it reaches one without.
pub fn reaching(alloc: Global, edges: &[Row<u32>], on: &[bool]) -> Result<Vec<bool>, OutOfMemory>
    requires few { length edges.now ≤ 16384 }
    requires inside { hubs.LeadInside edges.now }
    requires exact { TellsCycles (targets edges.now) on.now }
    ensures { IfOk result (λ reach. (n : ℕ) → n < length edges.now
        → IsTrue (flag reach.items n) ↔ hubs.LeadsToCycle (targets edges.now) n) }
{
    let rows = with_hub(alloc, edges, on)?;
    let found = find_cycles(alloc, &rows)?;
    Ok(found.on)
}

// The rows with the hub behind them.
fn with_hub(alloc: Global, edges: &[Row<u32>], on: &[bool]) -> Result<Vec<Row<u32>>, OutOfMemory>
    requires few { length edges.now ≤ 16384 }
    ensures { IfOk result (λ rows. rows.items ≡ hubs.with_hub edges.now on.now) }
{
    let hub = edges.len() as u32;
    let mut rows = Vec::with_capacity(alloc, edges.len())?;
    for node in 0..edges.len() {
        rows.push(with_edge(alloc, targets_of(edges, node), is_set(on, node), hub)?)?;
    }
    rows.push(all_below(alloc, hub)?)?;
    Ok(rows)
}

// A row, with the hub behind it where the node lies on a cycle.
fn with_edge(alloc: Global, row: &[u32], on: bool, hub: u32) -> Result<Row<u32>, OutOfMemory>
    ensures { IfOk result (λ new. new ≡ row.now ++ hubs.hub_if on hub) }
{
    let mut new = Vec::new(alloc);
    new.extend_from_slice(row)?;
    if on {
        new.push(hub)?;
    }
    Ok(Row::from_vec(new))
}

// All numbers below this one.
fn all_below(alloc: Global, end: u32) -> Result<Row<u32>, OutOfMemory>
    ensures { IfOk result (λ row. row ≡ range_with_len 0 end) }
{
    let mut row = Row::new(alloc);
    for number in 0..end {
        row.push(number)?;
    }
    Ok(row)
}
