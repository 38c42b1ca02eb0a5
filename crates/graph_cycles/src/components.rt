//! The strongly connected components of a graph, with ranks.

use crate::marks::{is_set, no_flags, number_at, put, set, targets_of};
use aidl_base::{OutOfMemory, Row};
use std::alloc::Global;

/// The strongly connected components: for each node the root and the rank of its component, and the nodes in the order in
/// which they were put into components. Edges lead to the same rank or to a lower one.
#[derive(Drop)]
pub struct Components {
    pub roots: Vec<usize>,
    pub ranks: Vec<usize>,
    pub order: Vec<usize>,
    seen: Vec<bool>,
}

// The edges that lead to each node, as chains: a node has its last edge's number, counted from 1, an edge its source and the
// number of the edge before, 0 for none.
struct Incoming {
    last: Vec<usize>,
    source: Vec<usize>,
    before: Vec<usize>,
}

impl Drop for Incoming {
    fn drop(self) {
        let Incoming {
            last: _,
            source: _,
            before: _,
        } = self;
    }
}

/// The components, by the order in which a depth-first search left the nodes (Kosaraju and Sharir): the edges are gone
/// back from the node that was left last.
pub fn grouped(
    alloc: Global,
    edges: &[Row<u32>],
    left: &[usize],
) -> Result<Components, OutOfMemory> {
    let incoming = incoming_of(alloc, edges)?;
    let mut found = Components::of_none(alloc, edges.len())?;
    found.fill_all(&incoming, left)?;
    Ok(found)
}

impl Components {
    // So many nodes, none of which is in a component.
    fn of_none(alloc: Global, nodes: usize) -> Result<Components, OutOfMemory> {
        Ok(Components {
            roots: Vec::from_elem(alloc, 0usize, nodes)?,
            ranks: Vec::from_elem(alloc, 0usize, nodes)?,
            order: Vec::new(alloc),
            seen: no_flags(alloc, nodes)?,
        })
    }

    // Makes a component of each of these nodes that is in none, from the last on.
    fn fill_all(&mut self, incoming: &Incoming, left: &[usize]) -> Result<(), OutOfMemory> {
        let mut rank = self.ranks.len();
        for root in left.iter().rev() {
            let first = self.order.len();
            self.join(*root, *root, rank)?;
            self.fill(incoming, *root, rank, first)?;
            rank = rank.saturating_sub(1);
        }
        Ok(())
    }

    // Puts a node into a component, where it is in none.
    fn join(&mut self, node: usize, root: usize, rank: usize) -> Result<(), OutOfMemory> {
        if !is_set(&self.seen, node) {
            set(&mut self.seen, node);
            put(&mut self.roots, node, root);
            put(&mut self.ranks, node, rank);
            self.order.push(node)?;
        }
        Ok(())
    }

    // Puts all from which a way leads to the nodes of the order, from a place of it on, into their component. Each step takes one
    // more node of the order, so there are fewer than 2^64.
    fn fill(
        &mut self,
        incoming: &Incoming,
        root: usize,
        rank: usize,
        first: usize,
    ) -> Result<(), OutOfMemory> {
        let mut at = first;
        for _ in 0..u64::MAX {
            if at >= self.order.len() {
                break;
            }
            let node = self.order[at];
            self.take_sources(incoming, node, root, rank)?;
            at = at.saturating_add(1);
        }
        Ok(())
    }

    // Puts the sources of the edges that lead to a node into its component.
    fn take_sources(
        &mut self,
        incoming: &Incoming,
        node: usize,
        root: usize,
        rank: usize,
    ) -> Result<(), OutOfMemory> {
        let mut edge = number_at(&incoming.last, node);
        for _ in 0..u64::MAX {
            if edge == 0 {
                break;
            }
            self.join(number_at(&incoming.source, edge - 1), root, rank)?;
            edge = number_at(&incoming.before, edge - 1);
        }
        Ok(())
    }
}

fn incoming_of(alloc: Global, edges: &[Row<u32>]) -> Result<Incoming, OutOfMemory> {
    let mut incoming = Incoming {
        last: Vec::from_elem(alloc, 0usize, edges.len())?,
        source: Vec::new(alloc),
        before: Vec::new(alloc),
    };
    for node in 0..edges.len() {
        incoming.add_all(node, targets_of(edges, node))?;
    }
    Ok(incoming)
}

impl Incoming {
    // Adds the edges of a node.
    fn add_all(&mut self, node: usize, targets: &[u32]) -> Result<(), OutOfMemory> {
        for target in targets {
            let to = *target as usize;
            self.source.push(node)?;
            self.before.push(number_at(&self.last, to))?;
            let edge = self.source.len();
            put(&mut self.last, to, edge);
        }
        Ok(())
    }
}
