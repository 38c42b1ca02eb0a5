//! Laws of the items: they are those of what is read, and their parts are the bytes.
ghost use Rattle.std.specs.Prelude.{◌≡◌, ◌↔◌, ◌++◌, true, List, ℕ, ℤ, Ok, Err};
ghost use Rattle.aidl_base.specs.declared.profile.Profile.TheVariants.{Strict};
ghost use Rattle.aidl_schema.specs.Types.{is_type};
ghost use Rattle.aidl_values.specs.Data.{Data};
ghost use Rattle.parcel_explain.specs.Ends.{EndsBy, NoneStopsBefore, last_status, read_each, status_of_end};
ghost use Rattle.parcel_explain.specs.Items.{items_of, parts_of};
ghost use Rattle.parcel_explain.specs.Noted.{joined};
ghost use Rattle.wire_model.specs.Reads.{Reads};
ghost use Rattle.wire_model.specs.Stop.{Stop};

use aidl_base::{Profile, Text};
use aidl_schema::{AidlType, Schema};
use wire_model::law_read_of;

/// The items of a value of this type, with so many levels left, are right to the end exactly where a front of the bytes is a reading by the
/// strict profile, and their parts, joined, are that front. They end at a wrong item, with its status, exactly where the bytes stop with it.
pub fn law_items(schema: &Schema, ty: &AidlType, levels: usize, path: &Text, b: &[u8], inside: bool)
    requires known { is_type schema.now.decls ty.now ≡ true }
    ensures reads { (rest : List ℕ)
        → ((items_of schema.now.decls levels ty.now path.now inside b.now).found ≡ Ok (tt, rest))
        ↔ ((v : Data) × (front : List ℕ) × (b.now ≡ front ++ rest)
        × Reads Strict schema.now.decls levels ty.now front v) }
    ensures parts { (rest : List ℕ)
        → (items_of schema.now.decls levels ty.now path.now inside b.now).found ≡ Ok (tt, rest)
        → b.now
        ≡ joined (items_of schema.now.decls levels ty.now path.now inside b.now).parts ++ rest }
    ensures stops { (s : ℤ) → ((at : List ℕ) × ((items_of schema.now.decls
        levels ty.now path.now inside b.now).found ≡ Err (record { path = at; status = s })))
        ↔ Stop Strict schema.now.decls levels ty.now b.now inside s }
{
    law_read_of(Profile::Strict, schema, ty, levels, b, inside);
}

/// The parts of a parcel, joined, are its bytes. No part before the last is a stop, and the last is one exactly where reading the values
/// strictly, one after the other, refuses one, with the status of that refusal. Else the parts of values are all but one for the bytes that are
/// left then, where any are.
pub fn law_parts(schema: &Schema, types: &[AidlType], b: &[u8])
    ensures joined { joined (parts_of schema.now.decls types.now b.now) ≡ b.now }
    ensures last { NoneStopsBefore (parts_of schema.now.decls types.now b.now) }
    ensures stops { last_status (parts_of schema.now.decls types.now b.now)
        ≡ status_of_end (read_each schema.now.decls types.now b.now) }
    ensures ends { EndsBy (parts_of schema.now.decls types.now b.now)
        (read_each schema.now.decls types.now b.now) }
{}
