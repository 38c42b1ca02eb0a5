//! Laws of defaults: each type of a schema has one, of its type, and of bounded depth and size.
ghost use Rattle.std.specs.Prelude.{◌≡◌, ℕ, ◌≤◌, ◌↔◌, true, IsTrue, min};
ghost use Rattle.aidl_schema.specs.Sizes.{default_depth, default_nodes, has_small_default};
ghost use Rattle.aidl_schema.specs.Types.{is_type};
ghost use Rattle.aidl_schema.specs.Valid.{one_of};
ghost use Rattle.aidl_schema.specs.declared.schema.AidlType.{AidlType};
ghost use Rattle.aidl_values.specs.Data.{Data, depth_of};
ghost use Rattle.aidl_values.specs.Default.{IsInitial, IsZero, zero_within};
ghost use Rattle.aidl_values.specs.Ends.{HaveFieldTypes, IsSmall, ReachesNoCycle};
ghost use Rattle.aidl_values.specs.HasType.{HasType};
ghost use Rattle.aidl_values.specs.Nodes.{nodes_of};
ghost use Rattle.aidl_values.specs.Sound.{IsPartOf, IsSound};
ghost use Rattle.aidl_values.specs.View.{view};

use crate::value::Value;
use aidl_schema::{AidlType, Base, Decl, Field, Schema, law_valid};

/// Each type of a schema has one default: 33 levels are enough to find it, and nothing else is one.
pub fn law_one_default(schema: &Schema, ty: &AidlType, value: &Value)
    requires { is_type schema.now.decls ty.now ≡ true }
    ensures there { IsZero schema.now.decls ty.now (zero_within 33 schema.now.decls ty.now) }
    ensures only { IsZero schema.now.decls ty.now (view value.now)
        ↔ (view value.now ≡ zero_within 33 schema.now.decls ty.now) }
{
    law_valid(schema);
}

/// A default has its type, its depth is at most 32 and its nodes at most 512, and both are what the schema counts.
pub fn law_default_fits(schema: &Schema, ty: &AidlType, value: &Value)
    requires of_schema { is_type schema.now.decls ty.now ≡ true }
    requires zero { IsZero schema.now.decls ty.now (view value.now) }
    ensures typed { HasType schema.now.decls ty.now (view value.now) }
    ensures depth { depth_of (view value.now) ≡ default_depth schema.now.decls ty.now }
    ensures nodes { nodes_of (view value.now) ≡ default_nodes schema.now.decls ty.now }
    ensures shallow { depth_of (view value.now) ≤ 32 }
    ensures small { nodes_of (view value.now) ≤ 512 }
{
    law_valid(schema);
}

/// What a field of a parcelable starts with has the field's type, a depth of at most 31 and at most 511 nodes: one less
/// of each than the parcelable's default may have.
pub fn law_initial_fits(schema: &Schema, base: Base, field: &Field, value: &Value)
    requires of_parcelable { IsPartOf schema.now.decls base field.now }
    requires initial { IsInitial schema.now.decls field.now (view value.now) }
    ensures typed { HasType schema.now.decls field.now.ty (view value.now) }
    ensures shallow { depth_of (view value.now) ≤ 31 }
    ensures small { nodes_of (view value.now) ≤ 511 }
{
    law_valid(schema);
}

/// In a schema the fields of each parcelable and union have types of the schema and a default each, of their type, and are at most 4,096.
pub fn law_sound(schema: &Schema)
    ensures { IsSound schema.now.decls }
{
    law_valid(schema);
}

/// What is a default of a type of the schema has at most 512 nodes.
pub fn law_small_defaults(schema: &Schema)
    ensures { (t : AidlType) (v : Data) → is_type schema.now.decls t ≡ true
        → IsZero schema.now.decls t v → nodes_of v ≤ 512 }
{
    law_valid(schema);
}

/// What is a default of a type of the schema has at most 32 levels.
pub fn law_shallow_defaults(schema: &Schema)
    ensures { (t : AidlType) (v : Data) → is_type schema.now.decls t ≡ true
        → IsZero schema.now.decls t v → depth_of v ≤ 32 }
{
    law_valid(schema);
}

/// What is found as the default of a type of the schema has the type.
pub fn law_typed_defaults(schema: &Schema)
    ensures { (t : AidlType) → is_type schema.now.decls t ≡ true
        → HasType schema.now.decls t (zero_within 33 schema.now.decls t) }
{
    law_valid(schema);
}

/// What E23 counts of a type's default is what the default has, of any declarations, valid or not: its depth up to 33, its
/// nodes up to 513, and so E23 permits it exactly where it has at most 32 levels and 512 nodes.
pub fn law_counted_defaults(decls: &[Decl])
    ensures depth { (t : AidlType) (v : Data)
        → IsZero decls.now t v → default_depth decls.now t ≡ min 33 (depth_of v) }
    ensures nodes { (t : AidlType) (v : Data)
        → IsZero decls.now t v → default_nodes decls.now t ≡ min 513 (nodes_of v) }
    ensures small { (t : AidlType) (v : Data)
        → IsZero decls.now t v → IsTrue (has_small_default decls.now t) ↔ IsSmall v }
{}

/// Where the types of fields break no rule and each union has a field, each declaration that is a type, so no interface, and reaches no
/// cycle of containment has a default, though the declarations needn't be valid. A type has only one. So such a declaration breaks E23
/// exactly where that value is deeper than 32 levels or has more than 512 nodes (`law_counted_defaults`).
pub fn law_default_ends(decls: &[Decl])
    ensures there { HaveFieldTypes decls.now → (n : ℕ) → is_type decls.now (one_of n) ≡ true
        → ReachesNoCycle decls.now n → (v : Data) × IsZero decls.now (one_of n) v }
    ensures only { (t : AidlType) (v w : Data)
        → IsZero decls.now t v → IsZero decls.now t w → v ≡ w }
{}
