//! Method ids that are malformed, missing beside others or used twice in an interface: the breaches of E19.
ghost use Rattle.std.specs.Prelude.{◌≡◌, ◌++◌, ◌||◌, ℕ, nat_eq, map, IfOk, OnOk};
ghost use Rattle.std.specs.List.{list_any};
ghost use Rattle.indexmap.specs.IndexSet.{contains};
ghost use Rattle.aidl_syntax.specs.Trees.{method_of};
ghost use Rattle.type_uses.specs.Ids as meant;
ghost use Rattle.type_rules.specs.IdRules as rules;
ghost use Rattle.type_rules.specs.Filters.{breaches_at};
ghost use Rattle.type_uses.specs.TypeUses as typed;
ghost use Rattle.type_uses.specs.TypeUseViews.{seen_use};

use aidl_base::{Breach, OutOfMemory};
use aidl_names::add_if;
use aidl_syntax::{MethodTree, Token};
use indexmap::IndexSet;
use std::alloc::Global;
use type_uses::{TypeUseRef, is_id, number_of};

/// Adds the breaches of E19 in a declaration of a file, by the types that it uses.
pub fn add_bad_ids(
    alloc: Global,
    file: u32,
    uses: &[TypeUseRef<'_>],
    rows: &mut Vec<Breach>,
) -> Result<(), OutOfMemory>
    ensures { OnOk result (rows.new.items ≡ rows.old.items
        ++ breaches_at 19 file (rules.bad_ids (typed.methods_in (map seen_use uses.now)))) }
{
    let methods = methods_in(alloc, uses)?;
    add_in_list(alloc, file, methods.as_slice(), rows)
}

fn methods_in<'a>(
    alloc: Global,
    uses: &[TypeUseRef<'a>],
) -> Result<Vec<&'a MethodTree>, OutOfMemory>
    ensures { IfOk result (λ methods. map (λ m. method_of m.now) methods.items
        ≡ typed.methods_in (map seen_use uses.now)) }
{
    let mut methods = Vec::new(alloc);
    for used in uses {
        add_method(*used, &mut methods)?;
    }
    Ok(methods)
}

fn add_method<'a>(
    used: TypeUseRef<'a>,
    methods: &mut Vec<&'a MethodTree>,
) -> Result<(), OutOfMemory>
    ensures { OnOk result (map (λ m. method_of m.now) methods.new.items
        ≡ map (λ m. method_of m.now) methods.old.items
        ++ typed.methods_at (seen_use used.entry)) }
{
    match used {
        TypeUseRef::Method(method, _) => {
            methods.push(method)?;
            Ok(())
        }
        TypeUseRef::Field(_, _) => Ok(()),
        TypeUseRef::Constant(_, _) => Ok(()),
        TypeUseRef::Argument(_, _) => Ok(()),
    }
}

// Those of the methods of an interface; the ids so far are kept.
fn add_in_list(
    alloc: Global,
    file: u32,
    methods: &[&MethodTree],
    rows: &mut Vec<Breach>,
) -> Result<(), OutOfMemory>
    ensures { OnOk result (rows.new.items ≡ rows.old.items
        ++ breaches_at 19 file (rules.bad_ids (map (λ m. method_of m.now) methods.now))) }
{
    let some = has_ids(methods);
    let mut taken: IndexSet<u64> = IndexSet::new(alloc);
    for method in methods {
        let broken = is_bad(some, &method.id, &mut taken)?;
        add_if(broken, 19, file, method.name.offset, rows)?;
    }
    Ok(())
}

fn has_ids(methods: &[&MethodTree]) -> bool
    ensures { result ≡ list_any meant.has_id (map (λ m. method_of m.now) methods.now) }
{
    for method in methods {
        if method.id.is_some() {
            return true;
        }
    }
    false
}

// Whether an id, or that there is none, breaks E19; it is taken from then on.
fn is_bad(some: bool, id: &Option<Token>, taken: &mut IndexSet<u64>) -> Result<bool, OutOfMemory>
    ensures broken { IfOk result (λ broken. broken
        ≡ rules.is_bad_token some (contains nat_eq taken.old) id.now) }
    ensures taken { OnOk result ((n : ℕ) → contains nat_eq taken.new n
        ≡ (contains nat_eq taken.old n || rules.has_value n id.now)) }
{
    match id {
        None => Ok(some),
        Some(token) => {
            let added = taken.insert(number_of(token))?;
            Ok(!is_id(token) || !added)
        }
    }
}
