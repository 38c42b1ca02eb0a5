//! Two versions of a tree, and which methods reach each declaration and which unions have plain alternatives alone, in both.
ghost use Rattle.std.specs.Prelude.{◌≡◌, ◌&&◌, IfOk, map, not};
ghost use Rattle.compat_witness.specs.Candidates.{client_of, server_of};
ghost use Rattle.compat_witness.specs.Reaching.{are_plain, methods_reaching};
ghost use Rattle.compat_witness.specs.Rows.{alternatives_in, is_empty};
ghost use Rattle.witness_search.specs.Asked.{method_seen};
ghost use Rattle.witness_search.specs.ReachTables.{AreReachTables, plain_at, row_at};

use crate::candidates::Reach;
use crate::fields::plain_unions;
use crate::reaching::reach_table;
use aidl_base::{OutOfMemory, Row};
use std::alloc::Global;
use witness_calls::Version;

/// Two versions of a tree. It keeps for each declaration the methods that reach it, of the old one those by which a client of old
/// sends it and of the new one those of a client of new, and whether all alternatives are plain, if it is a union. They are found once
/// for all broken rules (own).
#[derive(Drop)]
pub struct Pair<'o, 'n> {
    pub old: Version<'o>,
    pub new: Version<'n>,
    tables: ReachTables,
    ghost are: { AreReachTables old new tables },
}

impl<'o, 'n> Pair<'o, 'n> {
    /// The pair of two versions. `OutOfMemory` is the one refusal.
    pub fn new(
        alloc: Global,
        old: Version<'o>,
        new: Version<'n>,
    ) -> Result<Pair<'o, 'n>, OutOfMemory>
        ensures old { IfOk result (λ pair. pair.old ≡ old.entry) }
        ensures new { IfOk result (λ pair. pair.new ≡ new.entry) }
    {
        let tables = tables_of(alloc, &old, &new)?;
        Ok(Pair { old, new, tables })
    }

    /// The methods of old, or of new where `back`, that reach the declaration of a number.
    #[tactic(auto, using(crate::proofs::Reaches::reached_back, crate::proofs::Reaches::reached_forth))]
    pub fn reaching(&self, back: bool, number: u32) -> &[Reach]
        ensures { map method_seen result.now
            ≡ methods_reaching (client_of back self.now.old self.now.new) number
            (server_of back self.now.old self.now.new) }
    {
        if back {
            row_of(self.tables.back.as_slice(), number)
        } else {
            row_of(self.tables.forth.as_slice(), number)
        }
    }

    /// Whether a method of old reaches the declaration of a number.
    pub fn is_reached(&self, number: u32) -> bool
        ensures { result ≡ not (is_empty (methods_reaching self.now.old number self.now.new)) }
    {
        match self.reaching(false, number) {
            [] => false,
            _ => true,
        }
    }

    /// Whether all alternatives of a union of old and of one of new are plain.
    #[tactic(auto, using(crate::proofs::PlainUnions::both_plain))]
    pub fn are_plain(&self, before: u32, after: u32) -> bool
        ensures { result ≡ (are_plain (alternatives_in self.now.old before)
            && are_plain (alternatives_in self.now.new after)) }
    {
        plain_at(self.tables.plain_olds.as_slice(), before)
            && plain_at(self.tables.plain_news.as_slice(), after)
    }
}

/// For each declaration of two versions the methods that reach it, and whether all alternatives are plain, if it is a union.
#[derive(Drop)]
pub struct ReachTables {
    pub forth: Vec<Row<Reach>>,
    pub back: Vec<Row<Reach>>,
    pub plain_olds: Vec<bool>,
    pub plain_news: Vec<bool>,
}

// The tables of two versions.
fn tables_of(
    alloc: Global,
    old: &Version<'_>,
    new: &Version<'_>,
) -> Result<ReachTables, OutOfMemory>
    ensures { IfOk result (λ tables. AreReachTables old.now new.now tables) }
{
    let forth = reach_table(alloc, old, new)?;
    let back = reach_table(alloc, new, old)?;
    let plain_olds = plain_unions(alloc, old.schema().decls.as_slice())?;
    let plain_news = plain_unions(alloc, new.schema().decls.as_slice())?;
    Ok(ReachTables {
        forth,
        back,
        plain_olds,
        plain_news,
    })
}

// What a number has; there is nothing that isn't plain where there is none.
fn plain_at(plain: &[bool], number: u32) -> bool
    ensures { result ≡ plain_at plain.now number }
{
    match plain.get(number as usize) {
        None => true,
        Some(plain) => *plain,
    }
}

// The row of a number.
fn row_of(rows: &[Row<Reach>], number: u32) -> &[Reach]
    ensures { result.now ≡ row_at rows.now number }
{
    match rows.get(number as usize) {
        None => &[],
        Some(row) => row.as_slice(),
    }
}
