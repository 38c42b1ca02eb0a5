//! The value of a file's first constant as text.

use crate::constants::push_value;
use aidl_base::{Const, OutOfMemory};
use aidl_syntax::{BodyTree, ConstantTree, DottedTree, ExprTree, FileTree, MemberTree, TypeTree};
use const_values::{ConstFault, EvalFault, Meanings, Operand, Wanted, evaluate, fit};
use growing::GrowingText;
use std::alloc::Global;

// No name has a meaning.
struct NoNames;

impl Meanings for NoNames {
    ghost use Rattle.std.specs.Prelude.{Err};
    ghost use Rattle.const_values.specs.declared.fault.ConstFault.TheVariants.{UnknownName};

    ghost meaning = { λ _ _. Err UnknownName };

    fn meaning(&self, _name: &DottedTree) -> Result<Operand<'_>, ConstFault> {
        Err(ConstFault::UnknownName)
    }
}

// The type that a name is.
fn wanted_of(name: &str) -> Option<Wanted> {
    match name {
        "boolean" => Some(Wanted::Boolean),
        "char" => Some(Wanted::Character),
        "byte" => Some(Wanted::Byte),
        "int" => Some(Wanted::Int),
        "long" => Some(Wanted::Long),
        "String" => Some(Wanted::Text),
        _ => None,
    }
}

/// The value of the first constant of a parcelable, or its fault, as text. Names have no meaning.
pub fn constant_text(alloc: Global, tree: &FileTree) -> Result<String, OutOfMemory> {
    match first_constant(tree) {
        Some(constant) => of_constant(alloc, constant),
        None => Ok(String::from_str(alloc, "no constant")?),
    }
}

fn first_constant(tree: &FileTree) -> Option<&ConstantTree> {
    match &tree.decl.body {
        BodyTree::Parcelable(members) => match members.as_slice() {
            [MemberTree::Constant(constant), ..] => Some(constant),
            _ => None,
        },
        _ => None,
    }
}

fn of_constant(alloc: Global, constant: &ConstantTree) -> Result<String, OutOfMemory> {
    let Some(wanted) = wanted_by(&constant.ty) else {
        return Ok(String::from_str(alloc, "another type")?);
    };
    let mut text = GrowingText::new(alloc);
    match value_for(alloc, wanted, &constant.value) {
        Ok(value) => push_value(&value, &mut text),
        Err(EvalFault::Fault(fault)) => write!(text, "fault {} {fault:?}", fault.number()),
        Err(EvalFault::OutOfMemory) => text.lose(),
    }
    text.into_string()
}

fn value_for(alloc: Global, wanted: Wanted, value: &ExprTree) -> Result<Const, EvalFault> {
    let operand = evaluate(alloc, &NoNames, value)?;
    fit(alloc, wanted, None, operand)
}

fn wanted_by(ty: &TypeTree) -> Option<Wanted> {
    match ty.name.name.0.as_slice() {
        [name] => wanted_of(name.0.as_str()),
        _ => None,
    }
}
