//! The check of a tree of files, stage by stage.
ghost use Rattle.std.specs.Prelude.{◌≡◌, [], map, IfOk, IfErr};
ghost use Rattle.aidl_syntax.specs.Sources.{AreOfBytes, source_of};
ghost use Rattle.const_items.specs.Items.{items};
ghost use Rattle.const_items.specs.ItemViews.{item_of};
ghost use Rattle.const_eval.specs.Outcomes.{AreOutcomes};
ghost use Rattle.type_check.specs.Checked.{IsSchemaOf, IsSchemaOfTrees};
ghost use Rattle.type_check.specs.Refusals.{IsRefusal, IsRefusalOfTrees};
ghost use Rattle.type_check.specs.Stages.{constants_broken};

use crate::fault::CheckFault;
use crate::refused::{of_files, of_names};
use crate::stages::types_broken;
use aidl_base::{Row, SourceFile};
use aidl_names::{Names, gather, law_accepted};
use aidl_schema::{Decl, Schema};
use aidl_syntax::ParsedFile;
use const_eval::{Settled, breaches, eval_all};
use schema_bounds::law_within;
use std::alloc::Global;
use tree_files::parse_files;
use tree_schema::{draft, law_named, law_valid};
use type_rules::law_unbroken;

/// The schema of the files of a tree (own). It refuses, in this order: the limits `files` and `file-bytes`; every file without tokens;
/// the limit on tokens that the first file passes; every file for which no tree stands; the limits on declarations; and all breaches
/// of the first failing one of three stages: names (E1 to E5), constants (E6 to E12) and types (E13 to E24). It may also answer that
/// memory was wanted.
pub fn check(alloc: Global, files: &[SourceFile]) -> Result<Schema, CheckFault>
    ensures ok { IfOk result (λ schema. IsSchemaOf files.now schema.decls) }
    ensures err { IfErr result (IsRefusal files.now) }
{
    match parse_files(alloc, files) {
        Ok(trees) => of_trees(alloc, trees.as_slice()),
        Err(fault) => Err(of_files(fault)),
    }
}

// The schema of the trees of files.
fn of_trees(alloc: Global, trees: &[ParsedFile]) -> Result<Schema, CheckFault>
    requires { AreOfBytes trees.now }
    ensures ok { IfOk result (λ schema. IsSchemaOfTrees (map source_of trees.now) schema.decls) }
    ensures err { IfErr result (IsRefusalOfTrees (map source_of trees.now)) }
{
    match gather(alloc, trees) {
        Ok(names) => of_gathered(alloc, &names),
        Err(fault) => Err(of_names(fault)),
    }
}

// The schema of a tree that breaks none of E1 to E5.
fn of_gathered(alloc: Global, names: &Names<'_>) -> Result<Schema, CheckFault>
    ensures ok { IfOk result (λ schema. IsSchemaOfTrees (map source_of names.now) schema.decls) }
    ensures err { IfErr result (IsRefusalOfTrees (map source_of names.now)) }
{
    law_accepted(names);
    let settled = eval_all(alloc, names)?;
    let faults = breaches(alloc, &settled)?;
    if faults.len() > 0 {
        return Err(CheckFault::Breaches(faults));
    }
    of_settled(alloc, names, &settled)
}

// The schema of a tree whose items have outcomes, none of which is a fault.
fn of_settled(alloc: Global, names: &Names<'_>, settled: &Settled<'_>) -> Result<Schema, CheckFault>
    requires items { map item_of settled.now.items.list.items ≡ items (map source_of names.now) }
    requires outcomes { AreOutcomes (map source_of names.now) settled.now.outcomes.items }
    requires constants { constants_broken (map source_of names.now) settled.now.outcomes.items
        ≡ [] }
    ensures ok { IfOk result (λ schema. IsSchemaOfTrees (map source_of names.now) schema.decls) }
    ensures err { IfErr result (IsRefusalOfTrees (map source_of names.now)) }
{
    law_named(names);
    law_accepted(names);
    let decls = draft(alloc, names, settled)?;
    let broken = types_broken(alloc, names, decls.as_slice())?;
    if broken.len() > 0 {
        return Err(CheckFault::Breaches(broken));
    }
    Ok(schema(names, decls))
}

// The schema with these declarations, which are those of a tree that breaks no rule.
fn schema(names: &Names<'_>, decls: Row<Decl>) -> Schema
    requires { IsSchemaOfTrees (map source_of names.now) decls }
    ensures { IsSchemaOfTrees (map source_of names.now) result.decls }
{
    law_unbroken(names.files());
    law_within(decls.as_slice());
    law_valid(names);
    Schema { decls }
}
