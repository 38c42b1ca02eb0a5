//! Depth-first search, with the orders in which it enters and leaves the nodes.

use crate::marks::{is_set, no_flags, set, targets_of};
use aidl_base::{OutOfMemory, Row};
use std::alloc::Global;

/// The nodes in the order in which a depth-first search enters them, and in which it leaves them.
#[derive(Drop)]
pub struct Visited {
    pub entered: Vec<usize>,
    pub left: Vec<usize>,
}

// A node on the way of the search, and which of its targets comes next.
#[derive(Clone, Copy)]
struct Visit {
    node: usize,
    next: usize,
}

#[derive(Drop)]
struct Search {
    seen: Vec<bool>,
    way: Vec<Visit>,
    entered: Vec<usize>,
    left: Vec<usize>,
}

/// A depth-first search from each node that none before it led to.
pub fn depth_first(alloc: Global, edges: &[Row<u32>]) -> Result<Visited, OutOfMemory> {
    let mut search = Search {
        seen: no_flags(alloc, edges.len())?,
        way: Vec::new(alloc),
        entered: Vec::new(alloc),
        left: Vec::new(alloc),
    };
    for start in 0..edges.len() {
        search.enter(start)?;
        search.go_all_the_way(edges)?;
    }
    Ok(Visited {
        entered: search.entered,
        left: search.left,
    })
}

impl Search {
    // Enters a node that has a row, where it wasn't entered before.
    fn enter(&mut self, node: usize) -> Result<(), OutOfMemory> {
        if node < self.seen.len() && !is_set(&self.seen, node) {
            set(&mut self.seen, node);
            self.entered.push(node)?;
            self.way.push(Visit { node, next: 0 })?;
        }
        Ok(())
    }

    // Goes on until the way is empty. There are fewer steps than 2^64, since each enters or leaves a node or passes an edge.
    fn go_all_the_way(&mut self, edges: &[Row<u32>]) -> Result<(), OutOfMemory> {
        for _ in 0..u64::MAX {
            match self.way.pop() {
                Some(visit) => self.go_on(edges, visit)?,
                None => break,
            }
        }
        Ok(())
    }

    // Enters the next target of a node, or leaves the node after its last.
    fn go_on(&mut self, edges: &[Row<u32>], visit: Visit) -> Result<(), OutOfMemory> {
        match targets_of(edges, visit.node).get(visit.next) {
            Some(target) => {
                self.way.push(Visit {
                    node: visit.node,
                    next: visit.next.saturating_add(1),
                })?;
                self.enter(*target as usize)
            }
            None => {
                self.left.push(visit.node)?;
                Ok(())
            }
        }
    }
}
