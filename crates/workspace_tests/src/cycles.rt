//! Which nodes of a graph lie on a cycle.

use crate::same::same;
use aidl_base::{OutOfMemory, Row};
use graph_cycles::find_cycles;
use std::alloc::Global;
use std::test::Fail;

// The targets of each node, and the nodes on a cycle.
const GRAPHS: [(&[&[u32]], &[bool]); 7] = [
    (&[], &[]),
    (&[&[]], &[false]),
    (&[&[0]], &[true]),
    // a number beyond the last row leads nowhere
    (&[&[1]], &[false]),
    // a chain, and a node that leads into a cycle
    (&[&[1], &[2], &[]], &[false, false, false]),
    (&[&[1], &[2], &[1]], &[false, true, true]),
    // 2 lies between the cycle of 0 and 1 and that of 3
    (
        &[&[1, 1], &[0, 2], &[3, 9], &[3, 4], &[]],
        &[true, true, false, true, false],
    ),
];

// Which nodes of a graph lie on a cycle.
fn on_cycles(alloc: Global, rows: &[&[u32]]) -> Result<Vec<bool>, OutOfMemory> {
    let mut edges = Vec::new(alloc);
    for row in rows {
        edges.push(Row::from_vec(Vec::from_slice(alloc, row)?))?;
    }
    Ok(find_cycles(alloc, edges.as_slice())?.on)
}

#[test]
fn nodes_between_cycles_are_on_none(rt: HostRuntime) -> Result<(), Fail> {
    for (rows, wanted) in GRAPHS {
        let on = on_cycles(rt.alloc(), rows)?;
        same(&rt, on.as_slice(), wanted);
    }
    Ok(())
}

// A ring or a chain of so many nodes, each of which leads ahead to some others too.
fn long_way(alloc: Global, count: u32, is_ring: bool) -> Result<Vec<Row<u32>>, OutOfMemory> {
    let mut edges = Vec::new(alloc);
    for node in 0..count {
        let mut row = Row::new(alloc);
        for step in [1, 2, 7, 100, 30_000] {
            row.push(node.saturating_add(step))?;
        }
        if is_ring && node == count - 1 {
            row.push(0)?;
        }
        edges.push(row)?;
    }
    Ok(edges)
}

// Which nodes of a long way lie on a cycle.
fn on_long_way(alloc: Global, is_ring: bool) -> Result<Vec<bool>, OutOfMemory> {
    let edges = long_way(alloc, 65_536, is_ring)?;
    Ok(find_cycles(alloc, edges.as_slice())?.on)
}

// A search from each node would take hours: that this test ends shows that the certificate held.
#[test]
fn long_ways_take_linear_time(rt: HostRuntime) -> Result<(), Fail> {
    for is_ring in [false, true] {
        let on = on_long_way(rt.alloc(), is_ring)?;
        same(&rt, on.len(), 65_536);
        same(&rt, on.iter().all(|on| *on == is_ring), true);
    }
    Ok(())
}
