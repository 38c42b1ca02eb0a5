//! Laws of schemas: same types, containment, sizes of defaults, validity, and the evolution rules.
ghost use Rattle.std.specs.Prelude.{◌≡◌, ◌↔◌, ◌≤◌, true, IsTrue, length, map, min, []};
ghost use Rattle.std.specs.Cmp.Lexicographic.{slice_cmp};
ghost use Rattle.std.specs.List.Sorted.{IsStrictlySortedBy};
ghost use Rattle.std.specs.Ordering.{nat_cmp};
ghost use Rattle.aidl_schema.specs.Broken.{broken};
ghost use Rattle.aidl_schema.specs.Containment.{Reaches, holds_itself};
ghost use Rattle.aidl_schema.specs.Holds.{AllHold, AreApart, HasElements};
ghost use Rattle.aidl_schema.specs.Names.{name_of};
ghost use Rattle.aidl_schema.specs.Same.{same};
ghost use Rattle.aidl_schema.specs.Sizes.{AreSteady, default_depth, default_nodes, depth_by, nodes_by};
ghost use Rattle.aidl_schema.specs.Types.{is_type};
ghost use Rattle.aidl_schema.specs.Unbroken.{Unbroken};
ghost use Rattle.aidl_schema.specs.declared.schema.AidlType.{AidlType};

use crate::schema::{AidlType, Decl, Schema};

/// Types that are the same are so both ways, and along a third; and each type of a schema is the same as itself.
pub fn law_same(a: &[Decl], t: &AidlType, b: &[Decl], u: &AidlType, c: &[Decl], w: &AidlType)
    ensures itself { is_type a.now t.now ≡ true → same a.now t.now a.now t.now ≡ true }
    ensures back { same a.now t.now b.now u.now ≡ true → same b.now u.now a.now t.now ≡ true }
    ensures along { same a.now t.now b.now u.now ≡ true
        → same b.now u.now c.now w.now ≡ true → same a.now t.now c.now w.now ≡ true }
{}

/// The same of all types of two schemas at once: each is the same as itself, and what is the same is so the other way round.
pub fn law_same_types(a: &Schema, b: &Schema)
    ensures itself { (t : AidlType) → is_type a.now.decls t ≡ true
        → same a.now.decls t a.now.decls t ≡ true }
    ensures back { (t u : AidlType) → same a.now.decls t b.now.decls u ≡ true
        → same b.now.decls u a.now.decls t ≡ true }
{}

/// A declaration holds itself (E22) exactly where a chain of containment leads from it back to it, however long.
pub fn law_holds_itself(decls: &[Decl], number: u32)
    ensures { IsTrue (holds_itself decls.now number) ↔ Reaches decls.now number number }
{}

/// The sizes of a type's default follow from those of its fields' types, up to a depth of 33 and up to 513 nodes.
pub fn law_default_sizes(decls: &[Decl], ty: &AidlType)
    ensures depth { default_depth decls.now ty.now
        ≡ min 33 (depth_by decls.now (λ u. default_depth decls.now u) ty.now) }
    ensures nodes { default_nodes decls.now ty.now
        ≡ min 513 (nodes_by decls.now (λ u. default_nodes decls.now u) ty.now) }
{}

/// What a schema gives since it is valid: what holds of each declaration (`Holds` names it), that their names rise and
/// differ, that they are at most 16,384, that the elements of its types have types of it, and that the sizes of defaults are
/// the same however deep one looks.
pub fn law_valid(schema: &Schema)
    ensures declarations { AllHold schema.now.decls }
    ensures sorted { IsStrictlySortedBy (slice_cmp nat_cmp) (map name_of schema.now.decls) }
    ensures apart { AreApart name_of schema.now.decls }
    ensures few { length schema.now.decls ≤ 16384 }
    ensures elements { HasElements schema.now.decls }
    ensures sizes { AreSteady schema.now.decls }
{}

/// No evolution rule is broken from a schema to itself, and where none is from a first schema to a second and from that
/// to a third, none is from the first to the third.
pub fn law_chain(a: &Schema, b: &Schema, c: &Schema)
    ensures itself { broken a.now.decls a.now.decls ≡ [] }
    ensures along { broken a.now.decls b.now.decls ≡ []
        → broken b.now.decls c.now.decls ≡ [] → broken a.now.decls c.now.decls ≡ [] }
{}

/// The list of broken rules is empty exactly where nothing is broken, rule by rule (`Unbroken` says it sentence by sentence).
pub fn law_unbroken(old: &Schema, new: &Schema)
    ensures { (broken old.now.decls new.now.decls ≡ []) ↔ Unbroken old.now.decls new.now.decls }
{}
