//! A law of cycles: each graph has an answer.
ghost use Rattle.std.specs.Prelude.{ℕ, Bool, List};
ghost use Rattle.graph_cycles.specs.Paths.{Descends, TellsCycles, targets};

use aidl_base::Row;

/// A law of the definitions: each graph has flags that tell which nodes lie on a cycle, and ranks that fall along edges from nodes
/// that lie on none.
pub fn law_some_cycles(edges: &[Row<u32>])
    ensures { (on : List Bool) × (ranks : List ℕ) × TellsCycles (targets edges.now) on
        × Descends (targets edges.now) on ranks }
{}
