//! The value or the fault of one item, by the values of those that it depends on.
ghost use Rattle.std.specs.Prelude.{◌≡◌, map, IfOk, IsTrue};
ghost use Rattle.aidl_syntax.specs.Trees.{expr_of};
ghost use Rattle.aidl_names.specs.Refusals.{IsScope};
ghost use Rattle.aidl_syntax.specs.Sources.{source_of};
ghost use Rattle.const_values.specs.Seen.{Answers};
ghost use Rattle.const_eval.specs.Held.{is_held};
ghost use Rattle.const_items.specs.ItemViews.{item_of};
ghost use Rattle.const_eval.specs.Known.{AreHeld, IsItemAt, judgement_by, values_in};
ghost use Rattle.const_eval.specs.Outcomes as meant;
ghost use Rattle.const_eval.specs.TreeViews.{HasItems, files_of, items_of};
ghost use Rattle.const_items.specs.TargetViews.{seen_targets};

use crate::fitting::fit_value;
use crate::known::KnownValues;
use crate::outcome::Outcome;
use crate::stepping::{first, one_more};
use crate::tree::TreeItems;
use aidl_base::Const;
use aidl_names::Names;
use aidl_syntax::{ExprKind, ExprTree};
use const_items::{ItemRef, Target, WrittenRef, target_of};
use const_values::{EvalFault, evaluate};
use std::alloc::Global;

/// The value of the item with a number, or its fault, by the values of what it depends on: the first fault in the order of
/// evaluation, or that against the wanted type (own).
pub fn judgement(
    alloc: Global,
    tree: &TreeItems<'_>,
    number: usize,
    item: &ItemRef<'_>,
    outcomes: &[Outcome],
) -> Result<Const, EvalFault>
    requires all { HasItems tree.now }
    requires at { IsItemAt tree.now.items.now.list.items number item.now }
    requires held { AreHeld (items_of tree.now) outcomes.now }
    ensures value { Answers
        (λ c. c) result (judgement_by (files_of tree.now) outcomes.now (item_of item.now)) }
    ensures held { IfOk result (λ c. IsTrue (is_held item.now.wanted c)) }
{
    match item.value {
        WrittenRef::Expression(expr) => of_expression(alloc, tree, number, item, outcomes, expr),
        WrittenRef::First => first(alloc, item.wanted),
        WrittenRef::After(place) => {
            let before = tree.items.number_at(item.file, place);
            one_more(alloc, item.wanted, outcomes, before)
        }
    }
}

// The value of an expression of the item.
fn of_expression(
    alloc: Global,
    tree: &TreeItems<'_>,
    number: usize,
    item: &ItemRef<'_>,
    outcomes: &[Outcome],
    expr: &ExprTree,
) -> Result<Const, EvalFault>
    requires all { HasItems tree.now }
    requires at { IsItemAt tree.now.items.now.list.items number item.now }
    requires held { AreHeld (items_of tree.now) outcomes.now }
    ensures value { Answers (λ c. c) result
        (meant.expression_of (files_of tree.now)
        (values_in outcomes.now) (item_of item.now) (expr_of expr.now)) }
    ensures held { IfOk result (λ c. IsTrue (is_held item.now.wanted c)) }
{
    let known = KnownValues::new(tree, number, outcomes);
    match evaluate(alloc, &known, expr) {
        Ok(operand) => {
            let named = named_enum(tree.names, item, expr);
            fit_value(alloc, item.wanted, named, operand)
        }
        Err(fault) => Err(fault),
    }
}

// The enum of whose enumerator an expression is the name, without parentheses.
fn named_enum(names: &Names<'_>, item: &ItemRef<'_>, expr: &ExprTree) -> Option<u32>
    requires { IsScope (map source_of names.now) item.now.file item.now.scope }
    ensures { result ≡ meant.named_enum (map source_of names.now)
        (item_of item.now) (expr_of expr.now) }
{
    match &expr.kind {
        ExprKind::Name(name) => enum_of(target_of(names, item, name)),
        ExprKind::Literal(_) => None,
        ExprKind::Group(_) => None,
        ExprKind::Unary(_, _) => None,
        ExprKind::Binary(_, _, _) => None,
    }
}

fn enum_of(target: Option<Target<'_>>) -> Option<u32>
    ensures { result ≡ meant.enum_of (seen_targets target.entry) }
{
    match target {
        Some(Target::Enumerator { number, .. }) => Some(number),
        Some(Target::Constant { .. }) => None,
        None => None,
    }
}
