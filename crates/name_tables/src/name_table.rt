//! Members with a table of their names.
ghost use Rattle.std.specs.Prelude.{◌≡◌, ℕ, List, IfOk};
ghost use Rattle.std.specs.Str.{bytes_eq};
ghost use Rattle.indexmap.specs.IndexMap.{get_by};
ghost use Rattle.name_tables.specs.Places.{place_in};
ghost use Rattle.name_tables.specs.steps.Tables.{place_from};

use crate::called::Called;
use aidl_base::OutOfMemory;
use indexmap::IndexMap;
use std::alloc::Global;
use std::marker::Model;

/// Members with the first position of each name. Contracts see it as the members.
pub struct NameTable<'a, M: Called> {
    members: &'a [M],
    places: IndexMap<&'a str, usize>,
}

impl<M: Called> Drop for NameTable<'_, M> {
    fn drop(self) {
        let NameTable {
            members: _,
            places: _,
        } = self;
    }
}

impl<'a, M: Called> Model for NameTable<'a, M> {
    ghost use Rattle.std.specs.Prelude.{◌≡◌, ℕ, List};
    ghost use Rattle.std.specs.Coded.{coded_list};
    ghost use Rattle.std.specs.Str.{bytes_eq};
    ghost use Rattle.indexmap.specs.IndexMap.{get_by};
    ghost use Rattle.name_tables.specs.steps.Tables.{place_from};

    ghost Value = { List M };

    ghost coded = { coded_list M.code };

    ghost view = { λ table. table.members.now };

    ghost invariant = { λ table. (q : List ℕ)
        → get_by (λ k. bytes_eq q k.now) table.places
        ≡ place_from M.called q 0 table.members.now };
}

impl<'a, M: Called> NameTable<'a, M> {
    /// Members with their table. `OutOfMemory` is the one refusal.
    pub fn new(alloc: Global, members: &'a [M]) -> Result<NameTable<'a, M>, OutOfMemory>
        ensures { IfOk result (λ table. table ≡ members.now) }
    {
        let places = places_of(alloc, members)?;
        Ok(NameTable { members, places })
    }

    /// The first position of a name, which is in UTF-8.
    #[tactic(auto, using(crate::proofs::Found::found))]
    pub fn place(&self, name: &str) -> Option<usize>
        ensures { result ≡ place_in M.called name.now self.now }
    {
        place_of(&self.places, name)
    }
}

fn place_of(table: &IndexMap<&str, usize>, name: &str) -> Option<usize>
    ensures { result ≡ get_by (λ k. bytes_eq name.now k.now) table.now }
{
    table.get(name).copied()
}

// The first position of each name, from the last member on.
fn places_of<'a, M: Called>(
    alloc: Global,
    members: &'a [M],
) -> Result<IndexMap<&'a str, usize>, OutOfMemory>
    ensures { IfOk result (λ table. (q : List ℕ)
        → get_by (λ k. bytes_eq q k.now) table ≡ place_from M.called q 0 members.now) }
{
    let mut table = IndexMap::with_capacity(alloc, members.len())?;
    for i in (0..members.len()).rev() {
        table.insert(members[i].name().0.as_str(), i)?;
    }
    Ok(table)
}
