//! Which declarations lie on a cycle of containment, and which of them reach one.
ghost use Rattle.std.specs.Prelude.{◌≡◌, ℕ, ◌≤◌, ◌<◌, length, IfOk};
ghost use Rattle.aidl_schema.specs.Containment.{holds_itself};
ghost use Rattle.graph_cycles.specs.Paths.{flag};
ghost use Rattle.schema_bounds.specs.Bounds.{reaches_cycle};

use crate::containment::containment;
use crate::reaching::reaching;
use aidl_base::OutOfMemory;
use aidl_schema::Decl;
use graph_cycles::find_cycles;
use std::alloc::Global;

/// Which declarations hold themselves, and which do or reach one that does.
#[derive(Drop)]
pub struct Reach {
    pub holds: Vec<bool>,
    pub reaches: Vec<bool>,
}

/// What the declarations reach by containment.
pub fn reach_of(alloc: Global, decls: &[Decl]) -> Result<Reach, OutOfMemory>
    requires { length decls.now ≤ 16384 }
    ensures holds { IfOk result (λ reach. (n : ℕ)
        → flag reach.holds.items n ≡ holds_itself decls.now n) }
    ensures reaches { IfOk result (λ reach. (n : ℕ)
        → n < length decls.now → flag reach.reaches.items n ≡ reaches_cycle decls.now n) }
{
    let edges = containment(alloc, decls)?;
    let found = find_cycles(alloc, &edges)?;
    let reaches = reaching(alloc, &edges, &found.on)?;
    Ok(Reach {
        holds: found.on,
        reaches,
    })
}
