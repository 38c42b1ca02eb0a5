//! The annotations of a list that the schema keeps.
ghost use Rattle.std.specs.Prelude.{◌≡◌, codes, map};
ghost use Rattle.std.specs.List.{list_any};
ghost use Rattle.aidl_syntax.specs.Trees.{annot_of};
ghost use Rattle.type_uses.specs.Kept as meant;

use crate::parameters::has_heap_true;
use aidl_syntax::AnnotTree;

/// What is kept of a list of annotations, but for the backing of an enum.
#[derive(Clone, Copy)]
pub struct Kept {
    /// `@nullable` stands there
    pub nullable: bool,
    /// a `@nullable` with `heap=true` stands there
    pub heap: bool,
    /// `@utf8InCpp` stands there
    pub utf8: bool,
    /// `@FixedSize` stands there
    pub fixed: bool,
    /// `@VintfStability` stands there
    pub vintf: bool,
}

/// What is kept of a list of annotations, by their names (own).
pub fn kept_of(annots: &[AnnotTree]) -> Kept
    ensures { result ≡ meant.kept_of (map annot_of annots.now) }
{
    Kept {
        nullable: is_nullable(annots),
        heap: is_heap(annots),
        utf8: has_called(annots, "utf8InCpp"),
        fixed: is_fixed(annots),
        vintf: has_called(annots, "VintfStability"),
    }
}

/// Whether `@nullable` stands there.
pub fn is_nullable(annots: &[AnnotTree]) -> bool
    ensures { result ≡ meant.is_nullable (map annot_of annots.now) }
{
    has_called(annots, "nullable")
}

/// Whether `@FixedSize` stands there.
pub fn is_fixed(annots: &[AnnotTree]) -> bool
    ensures { result ≡ meant.is_fixed (map annot_of annots.now) }
{
    has_called(annots, "FixedSize")
}

fn has_called(annots: &[AnnotTree], name: &str) -> bool
    ensures { result ≡ list_any (meant.is_called name.now) (map annot_of annots.now) }
{
    for annot in annots {
        if is_called(annot, name) {
            return true;
        }
    }
    false
}

fn is_called(annot: &AnnotTree, name: &str) -> bool
    ensures { result ≡ meant.is_called name.now (annot_of annot.now) }
{
    annot.name.name.0.as_str() == name
}

fn is_heap(annots: &[AnnotTree]) -> bool
    ensures { result ≡ meant.is_heap (map annot_of annots.now) }
{
    for annot in annots {
        if is_heap_annot(annot) {
            return true;
        }
    }
    false
}

/// Whether it is a `@nullable` with `heap=true`.
pub fn is_heap_annot(annot: &AnnotTree) -> bool
    ensures { result ≡ meant.is_heap_annot (annot_of annot.now) }
{
    is_nullable_annot(annot) && has_heap_true(annot.params.as_slice())
}

/// Whether it is a `@nullable`.
pub fn is_nullable_annot(annot: &AnnotTree) -> bool
    ensures { result ≡ meant.is_nullable_annot (annot_of annot.now) }
{
    is_called(annot, "nullable")
}
