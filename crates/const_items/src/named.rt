//! The names that stand in the expression of an item.
ghost use Rattle.std.specs.Prelude.{◌≡◌, ◌++◌, map, IfOk, OnOk};
ghost use Rattle.aidl_syntax.specs.Trees.{expr_of};
ghost use Rattle.const_items.specs.Dependence as meant;
ghost use Rattle.const_items.specs.ItemViews.{item_of};

use crate::item::{ItemRef, WrittenRef};
use aidl_base::OutOfMemory;
use aidl_syntax::{DottedTree, ExprKind, ExprTree};
use std::alloc::Global;

/// The names in what is written of an item, in the order of the file.
pub fn names_in<'a>(alloc: Global, item: ItemRef<'a>) -> Result<Vec<&'a DottedTree>, OutOfMemory>
    ensures { IfOk result (λ names. map (λ d. d.now) names.items
        ≡ meant.names_in (item_of item.entry).value) }
{
    let mut names = Vec::new(alloc);
    match item.value {
        WrittenRef::Expression(tree) => add_names(tree, &mut names)?,
        WrittenRef::First => {}
        WrittenRef::After(_) => {}
    }
    Ok(names)
}

#[cycle(names)]
fn add_names<'a>(tree: &'a ExprTree, names: &mut Vec<&'a DottedTree>) -> Result<(), OutOfMemory>
    ensures { OnOk result (map (λ d. d.now) names.new.items
        ≡ map (λ d. d.now) names.old.items ++ meant.names_of (expr_of tree.now)) }
{
    match &tree.kind {
        ExprKind::Literal(_) => Ok(()),
        ExprKind::Name(name) => {
            names.push(name)?;
            Ok(())
        }
        ExprKind::Group(inner) => add_names(inner, names),
        ExprKind::Unary(_, inner) => add_names(inner, names),
        ExprKind::Binary(_, left, right) => {
            add_names(left, names)?;
            add_names(right, names)
        }
    }
}
