//! Plain types and their values.
ghost use Rattle.std.specs.Prelude.{◌≡◌, codes, IfOk, false};
ghost use Rattle.aidl_values.specs.View.{view};
ghost use Rattle.compat_witness.specs.Reaching.{are_plain, is_plain, plain_value};
ghost use Rattle.compat_witness.specs.Rows.{is_plain_in, is_plain_result};

use aidl_base::{OutOfMemory, Text};
use aidl_schema::{AidlType, Arg, Base, Field, is_in_way, is_named, is_one_value};
use aidl_values::Value;
use std::alloc::Global;

/// Whether a type is one value of a built-in base, never null.
pub fn is_plain(ty: AidlType) -> bool
    ensures { result ≡ is_plain ty }
{
    is_one_value(ty) && !is_named(ty.base)
}

/// Whether all types of these fields are plain.
pub fn are_plain(fields: &[Field]) -> bool
    ensures { result ≡ are_plain fields.now }
{
    fields.iter().all(|field| is_plain(field.ty))
}

/// Whether an argument is `in` and plain.
pub fn is_plain_in(arg: &Arg) -> bool
    ensures { result ≡ is_plain_in arg.now }
{
    is_in_way(arg.way) && is_plain(arg.ty)
}

/// Whether a result is void or plain.
pub fn is_plain_result(ty: Option<AidlType>) -> bool
    ensures { result ≡ is_plain_result ty }
{
    match ty {
        Some(ty) => is_plain(ty),
        None => true,
    }
}

/// z0 of a base: false, 0 or the empty text.
pub fn low_value(base: Base) -> Value
    ensures { view result ≡ plain_value false base }
{
    match base {
        Base::Boolean => Value::Truth(false),
        Base::Text => Value::Text(Text::empty()),
        Base::Byte | Base::Char | Base::Int | Base::Long | Base::Named(_) => Value::Number(0),
    }
}

#[tactic(auto, using(crate::proofs::Letters::letter_chars))]
fn letter_a(alloc: Global) -> Result<Text, OutOfMemory>
    ensures { IfOk result (λ text. text ≡ codes "a") }
{
    Text::from_str(alloc, "a")
}

/// z0, or z1 where `high`: true, 1 or `"a"`.
pub fn plain_value(alloc: Global, high: bool, base: Base) -> Result<Value, OutOfMemory>
    ensures { IfOk result (λ value. view value ≡ plain_value high base) }
{
    if !high {
        return Ok(low_value(base));
    }
    match base {
        Base::Boolean => Ok(Value::Truth(true)),
        Base::Text => Ok(Value::Text(letter_a(alloc)?)),
        Base::Byte | Base::Char | Base::Int | Base::Long | Base::Named(_) => Ok(Value::Number(1)),
    }
}
