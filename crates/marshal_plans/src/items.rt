//! The items of types.
ghost use Rattle.std.specs.Prelude.{◌≡◌, IfOk};
ghost use Rattle.aidl_schema.specs.Seen.{seen};
ghost use Rattle.marshal_plans.specs.steps.Compiled.{added, first_in, one_item, pushed, single};

use crate::plans::{PlanId, PlanItem, Plans, WordKind};
use aidl_base::OutOfMemory;
use aidl_schema::{AidlType, Base, Form, Schema, element, form_in, is_one, is_raw};

/// Adds the item of a type, after that of its element where the type is a sequence, and answers its id. `firsts` has where the
/// entries of each declaration begin.
pub fn add_item(
    schema: &Schema,
    firsts: &[usize],
    ty: AidlType,
    plans: &mut Plans,
) -> Result<PlanId, OutOfMemory>
    ensures { IfOk result (λ id. added schema.now.decls firsts.now plans.old ty
        ≡ record { plans = plans.new; id = id }) }
{
    if is_one(ty.shape) {
        return push(single(schema, firsts, ty), plans);
    }
    if is_raw(schema, ty) {
        return push(
            PlanItem::Raw {
                nullable: ty.nullable,
            },
            plans,
        );
    }
    let element = push(single(schema, firsts, element(schema, ty)), plans)?;
    push(
        PlanItem::Seq {
            nullable: ty.nullable,
            element,
        },
        plans,
    )
}

fn push(item: PlanItem, plans: &mut Plans) -> Result<PlanId, OutOfMemory>
    ensures { IfOk result (λ id. pushed plans.old item ≡ record { plans = plans.new; id = id }) }
{
    let id = PlanId(plans.items.len());
    plans.items.push(item)?;
    Ok(id)
}

fn single(schema: &Schema, firsts: &[usize], ty: AidlType) -> PlanItem
    ensures { result ≡ single schema.now.decls firsts.now ty }
{
    one_item(
        ty.nullable,
        first_in(firsts, ty.base),
        form_in(schema, ty.base),
    )
}

fn one_item(nullable: bool, first: usize, form: Form<'_>) -> PlanItem
    ensures { result ≡ one_item nullable first (seen form.entry) }
{
    match form {
        Form::Truth => word(WordKind::Truth),
        Form::Byte => word(WordKind::Byte),
        Form::Char => word(WordKind::Char),
        Form::Int => word(WordKind::Int),
        // No type of a schema means nothing.
        Form::Long | Form::Nothing => PlanItem::Long,
        Form::Text => PlanItem::Text { nullable },
        Form::Parcelable(fields) => PlanItem::Rec {
            nullable,
            first,
            count: fields.len(),
        },
        Form::Union(fields) => PlanItem::Alt {
            nullable,
            first,
            count: fields.len(),
        },
    }
}

fn word(kind: WordKind) -> PlanItem
    ensures { result ≡ PlanItem.Word kind }
{
    PlanItem::Word { kind }
}

/// Where the entries of the declaration that a base names begin.
fn first_in(firsts: &[usize], base: Base) -> usize
    ensures { result ≡ first_in firsts.now base }
{
    match base {
        Base::Named(n) => match firsts.get(n as usize) {
            Some(first) => *first,
            None => 0,
        },
        _ => 0,
    }
}
