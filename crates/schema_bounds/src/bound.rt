//! The bound of each declaration: E22 broken, E23 broken, or neither.
ghost use Rattle.std.specs.Prelude.{◌≡◌, ◌≤◌, length, map, IfOk};
ghost use Rattle.std.specs.List.{range_with_len};
ghost use Rattle.schema_bounds.specs.Bounds as meant;

use crate::reach::reach_of;
use crate::small::small_defaults;
use aidl_base::OutOfMemory;
use aidl_schema::Decl;
use graph_cycles::is_set;
use std::alloc::Global;

/// Which of the rules on what a declaration holds it breaks.
#[derive(Clone, Copy, Debug, PartialEq, Eq)]
pub enum Bound {
    /// It breaks neither E22 nor E23.
    Within,
    /// It breaks E22: it reaches itself by containment.
    HoldsItself,
    /// It breaks E23: it reaches no cycle of containment, and its default has a depth above 32 or more than 512 nodes.
    TooLarge,
}

/// The bound of each declaration, by its number. The declarations needn't be valid: a type may name any number. But for one
/// sort of the declarations it takes time linear in their fields and initializers, where `find_cycles` is linear and the sizes
/// that are found first are right, as both always were so far. That they are isn't proved, and the answer doesn't rest on it.
pub fn bounds(alloc: Global, decls: &[Decl]) -> Result<Vec<Bound>, OutOfMemory>
    requires { length decls.now ≤ 16384 }
    ensures { IfOk result (λ bounds. bounds.items
        ≡ map (meant.bound decls.now) (range_with_len 0 (length decls.now))) }
{
    let reach = reach_of(alloc, decls)?;
    let small = small_defaults(alloc, decls)?;
    let mut bounds = Vec::with_capacity(alloc, decls.len())?;
    for number in 0..decls.len() {
        let holds = is_set(&reach.holds, number);
        let reaches = is_set(&reach.reaches, number);
        bounds.push(bound_by(holds, reaches, is_set(&small, number)))?;
    }
    Ok(bounds)
}

fn bound_by(holds: bool, reaches: bool, small: bool) -> Bound
    ensures { result ≡ meant.bound_by holds reaches small }
{
    if holds {
        Bound::HoldsItself
    } else if reaches || small {
        Bound::Within
    } else {
        Bound::TooLarge
    }
}
