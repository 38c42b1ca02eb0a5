//! The table of annotations: where each may stand, which parameters it takes, and whether it is kept.
ghost use Rattle.std.specs.Prelude.{◌≡◌, map};
ghost use Rattle.aidl_syntax.specs.Trees.{annot_of, param_of};
ghost use Rattle.type_uses.specs.Annotations as meant;

use crate::parameters::{is_heap, is_type_string};
use crate::stand::{Stand, is_text_based};
use aidl_syntax::{AnnotTree, ParamTree};

/// A row of the table of annotations (AOSP, "Annotations in AIDL").
#[derive(Clone, Copy)]
pub enum Annotation {
    Nullable,
    Utf8InCpp,
    Backing,
    FixedSize,
    VintfStability,
    /// one of those that say nothing here
    Dropped,
}

/// The row of an annotation, by its name.
pub fn row_of(annot: &AnnotTree) -> Option<Annotation>
    ensures { result ≡ meant.row_of (annot_of annot.now) }
{
    row_of_name(annot.name.name.0.as_str())
}

#[tactic(auto, unfolding(crate::specs::Annotations::row_of_name))]
fn row_of_name(name: &str) -> Option<Annotation>
    ensures { result ≡ meant.row_of_name name.now }
{
    match name {
        "nullable" => Some(Annotation::Nullable),
        "utf8InCpp" => Some(Annotation::Utf8InCpp),
        "Backing" => Some(Annotation::Backing),
        "FixedSize" => Some(Annotation::FixedSize),
        "VintfStability" => Some(Annotation::VintfStability),
        _ => dropped_row(name),
    }
}

// The row of an annotation that says nothing here.
fn dropped_row(name: &str) -> Option<Annotation>
    ensures { result ≡ meant.row_in (meant.rows_of meant.dropped) name.now }
{
    match name {
        "JavaDerive" | "RustDerive" | "JavaOnlyImmutable" | "Hide" => Some(Annotation::Dropped),
        "SuppressWarnings" | "SensitiveData" => Some(Annotation::Dropped),
        "JavaPassthrough" | "JavaDefault" | "JavaDelegator" => Some(Annotation::Dropped),
        "JavaSuppressLint" => Some(Annotation::Dropped),
        _ => platform_row(name),
    }
}

// The row of one that speaks of the platform.
fn platform_row(name: &str) -> Option<Annotation>
    ensures { result ≡ meant.row_in (meant.rows_of meant.of_platform) name.now }
{
    match name {
        "UnsupportedAppUsage" => Some(Annotation::Dropped),
        "EnforcePermission" | "RequiresNoPermission" => Some(Annotation::Dropped),
        "PermissionManuallyEnforced" | "PropagateAllowBlocking" => Some(Annotation::Dropped),
        _ => None,
    }
}

impl Annotation {
    /// Whether the row allows it there.
    pub fn may_stand(self, stand: Stand) -> bool
        ensures { result ≡ meant.may_stand self stand }
    {
        match (self, stand) {
            (Annotation::Nullable, Stand::Type(_)) => true,
            (Annotation::Nullable, Stand::Void) => true,
            (Annotation::Utf8InCpp, Stand::Type(shape)) => is_text_based(shape),
            (Annotation::Backing, Stand::Enum) => true,
            (Annotation::FixedSize, Stand::Composite) => true,
            (Annotation::VintfStability, Stand::Composite) => true,
            (Annotation::VintfStability, Stand::Enum) => true,
            (Annotation::VintfStability, Stand::Interface) => true,
            (Annotation::Dropped, _) => true,
            _ => false,
        }
    }

    /// Whether the row gives these parameters.
    pub fn takes(self, params: &[ParamTree]) -> bool
        ensures { result ≡ meant.takes self (map param_of params.now) }
    {
        match params {
            [] => true,
            [param] => self.takes_one(param),
            [_, _, ..] => !self.is_kept(),
        }
    }

    fn takes_one(self, param: &ParamTree) -> bool
        ensures { result ≡ meant.takes_one self (param_of param.now) }
    {
        match self {
            Annotation::Nullable => is_heap(param),
            Annotation::Backing => is_type_string(param),
            Annotation::Dropped => true,
            _ => false,
        }
    }

    /// Whether it is kept.
    pub fn is_kept(self) -> bool
        ensures { result ≡ meant.is_kept self }
    {
        match self {
            Annotation::Dropped => false,
            _ => true,
        }
    }
}
