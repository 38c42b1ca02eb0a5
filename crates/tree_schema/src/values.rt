//! The values in the schema of initializers, constants and enumerators, by the outcomes of their expressions.
ghost use Rattle.std.specs.Prelude.{◌≡◌, map, IfOk};
ghost use Rattle.aidl_syntax.specs.Trees.{enumerator_of, expr_of, exprs_of, init_of, map_option};
ghost use Rattle.tree_schema.specs.steps.Scopes.{files_of, outcomes_of};
ghost use Rattle.tree_schema.specs.Values as meant;

use crate::scope::Scope;
use aidl_base::{Const, OutOfMemory, Row};
use aidl_syntax::{EnumeratorTree, ExprTree, InitTree, TypeTree};
use const_items::place_by;
use std::alloc::Global;
use type_shapes::is_unjudged;

/// The initializer of a field, which may be one after the first of a union. One that E21 refuses, or whose field's type E16 refuses, isn't
/// there.
pub fn initial_of(
    alloc: Global,
    scope: &Scope<'_, '_>,
    later: bool,
    ty: &TypeTree,
    initial: &Option<InitTree>,
) -> Result<Option<Const>, OutOfMemory>
    ensures { IfOk result (λ value. value
        ≡ meant.initial_of (files_of scope.now) (outcomes_of scope.now)
        scope.now.file scope.now.number later ty.now (map_option init_of initial.now)) }
{
    match initial {
        None => Ok(None),
        Some(init) => {
            if is_unjudged(scope.names.decls(), later, scope.shape_of(ty), init) {
                Ok(None)
            } else {
                Ok(Some(initial_value(alloc, scope, init)?))
            }
        }
    }
}

// The value of an expression, or of a brace list the values of its members.
fn initial_value(
    alloc: Global,
    scope: &Scope<'_, '_>,
    init: &InitTree,
) -> Result<Const, OutOfMemory>
    ensures { IfOk result (λ value. value
        ≡ meant.initial_value (files_of scope.now) (outcomes_of scope.now) scope.now.file
        (init_of init.now)) }
{
    match init {
        InitTree::Single(expr) => constant_value(alloc, scope, expr),
        InitTree::Braces { items, .. } => {
            Ok(Const::Members(values(alloc, scope, items.as_slice())?))
        }
    }
}

fn values(
    alloc: Global,
    scope: &Scope<'_, '_>,
    exprs: &[ExprTree],
) -> Result<Row<Const>, OutOfMemory>
    ensures { IfOk result (λ row.
        row ≡ map (meant.constant_value (files_of scope.now) (outcomes_of scope.now) scope.now.file)
        (exprs_of exprs.now)) }
{
    let mut row = Vec::with_capacity(alloc, exprs.len())?;
    for expr in exprs {
        row.push(constant_value(alloc, scope, expr)?)?;
    }
    Ok(Row::from_vec(row))
}

/// The value of an expression that is an item of its own, and 0 where it has none.
pub fn constant_value(
    alloc: Global,
    scope: &Scope<'_, '_>,
    expr: &ExprTree,
) -> Result<Const, OutOfMemory>
    ensures { IfOk result (λ value. value
        ≡ meant.constant_value (files_of scope.now) (outcomes_of scope.now) scope.now.file
        (expr_of expr.now)) }
{
    match scope.value_at(expr.offset) {
        None => Ok(Const::Number(0)),
        Some(value) => value.try_clone(alloc),
    }
}

/// The value of an enumerator, and 0 where it has none.
pub fn enumerator_value(scope: &Scope<'_, '_>, enumerator: &EnumeratorTree) -> i64
    ensures { result ≡ meant.enumerator_value
        (files_of scope.now) (outcomes_of scope.now) scope.now.file
        (enumerator_of enumerator.now) }
{
    let place = place_by(enumerator.name.offset, &enumerator.value);
    match scope.value_at(place) {
        None => 0,
        Some(Const::Number(n)) => *n,
        Some(Const::Truth(_)) => 0,
        Some(Const::Text(_)) => 0,
        Some(Const::Members(_)) => 0,
    }
}
