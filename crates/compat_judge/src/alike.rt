//! Sameness of results and marks, between two schemas.
ghost use Rattle.std.specs.Prelude.{◌≡◌};
ghost use Rattle.aidl_schema.specs.Broken as broken;

use aidl_schema::{AidlType, Schema, same_flag, same_type};

/// Whether both are void or the same type.
pub fn same_result(
    old: &Schema,
    before: Option<AidlType>,
    new: &Schema,
    after: Option<AidlType>,
) -> bool
    ensures { result ≡ broken.same_result old.now.decls before new.now.decls after }
{
    match (before, after) {
        (None, None) => true,
        (Some(before), Some(after)) => same_type(old, before, new, after),
        _ => false,
    }
}

/// Whether `@utf8InCpp` and `heap` are the same.
pub fn same_marks(before: AidlType, after: AidlType) -> bool
    ensures { result ≡ broken.same_marks before after }
{
    same_flag(before.utf8, after.utf8) && same_flag(before.heap, after.heap)
}

/// The same of results; void has no marks to compare.
pub fn same_result_marks(before: Option<AidlType>, after: Option<AidlType>) -> bool
    ensures { result ≡ broken.same_result_marks before after }
{
    match (before, after) {
        (Some(before), Some(after)) => same_marks(before, after),
        _ => true,
    }
}
