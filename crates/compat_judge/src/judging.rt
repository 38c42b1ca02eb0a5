//! The judge: all evolution rules that are broken between two schemas.
ghost use Rattle.std.specs.Prelude.{◌≡◌, map, IfOk};
ghost use Rattle.aidl_schema.specs.Broken.{broken};
ghost use Rattle.compat_judge.specs.Seen.{seen};
ghost use Rattle.compat_judge.specs.steps.Adds.{Adds};
ghost use Rattle.compat_judge.specs.steps.Steps.{breaks_of};

use crate::findings::Findings;
use crate::lookup::find_decl;
use crate::rules::broken_by;
use crate::sides::Pair;
use aidl_base::{OutOfMemory, Row, Text, joined_by_dots};
use aidl_schema::{Decl, Schema};
use std::alloc::Global;

/// A broken evolution rule: its number, from 1 for C1 to 19 for C19, and the place: a canonical name, or one with a
/// member or an argument behind it.
#[derive(Debug)]
pub struct Broken {
    pub rule: u8,
    pub place: Text,
}

impl Drop for Broken {
    fn drop(self) {
        let Broken { rule: _, place: _ } = self;
    }
}

/// Which evolution rules a new schema breaks (own; what may change at all: AOSP, "Stable AIDL"), sorted by the bytes of
/// the place, then by the rule, each once. None is broken exactly where the row is empty.
pub fn judge(alloc: Global, old: &Schema, new: &Schema) -> Result<Row<Broken>, OutOfMemory>
    ensures exact { IfOk result (λ rows. map seen rows ≡ broken old.now.decls new.now.decls) }
{
    let mut found = Findings::new(alloc);
    for decl in old.decls.as_slice() {
        judge_decl(old, decl, new, &mut found);
    }
    found.sorted_once()
}

// What a declaration of old and that of its name in new break.
fn judge_decl(old: &Schema, decl: &Decl, new: &Schema, found: &mut Findings)
    ensures { Adds found.old found.new (breaks_of old.now.decls new.now.decls decl.now) }
{
    let Ok(name) = joined_by_dots(found.alloc, decl.name.0.as_slice()) else {
        return found.lose();
    };
    match find_decl(new, &name) {
        // C1: it is in old and not in new.
        None => found.name_if(1, &name, true),
        Some(after) => {
            let pair = Pair {
                old,
                before: decl,
                new,
                after,
                name: &name,
            };
            broken_by(&pair, found);
        }
    }
}
