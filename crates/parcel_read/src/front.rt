//! The front of the bytes as a value.
ghost use Rattle.std.specs.Prelude.{◌≡◌, ◌*◌, ◌≤◌, ℕ, [], true, false, length, take, drop, IfOk, IfErr, IfSome, MatchResult, Ok, OnOk};
ghost use Rattle.aidl_values.specs.Data.{Data};
ghost use Rattle.aidl_values.specs.HasType.{HasType};
ghost use Rattle.aidl_values.specs.Nodes.{nodes_of};
ghost use Rattle.aidl_values.specs.View.{view};
ghost use Rattle.marshal_plans.specs.Standing.{OfEachType};
ghost use Rattle.parcel_words.specs.Place.{left, MovesOn};
ghost use Rattle.parcel_words.specs.Taken.{RefusesIfMemory, TakesIfMemory, status_of};
ghost use Rattle.parcel_words.specs.declared.fault.ReadFault.TheVariants.{OutOfMemory as NoMemory};
ghost use Rattle.wire_model.specs.ReadOf.{read_of};
ghost use Rattle.wire_model.specs.Reads.{Reads};
ghost use Rattle.wire_model.specs.Stop.{Stop};

use crate::parcel_plans::ParcelPlans;
use crate::tree::value_from;
use aidl_base::Profile;
use aidl_values::Value;
use marshal_plans::{PlanId, Plans};
use parcel_words::{ReadFault, WordReader};
use std::alloc::Global;

/// Reads the front of the bytes by the profile, as a value of the type that the id stands for: the value, and how many bytes it
/// takes. Without want of memory it answers exactly a front that is a reading, and else refuses with the status of the first wrong
/// item.
pub fn read(
    alloc: Global,
    profile: Profile,
    plans: &Plans,
    id: PlanId,
    bytes: &[u8],
) -> Result<(Value, usize), ReadFault>
    ensures within { IfOk result (λ x. x.1 ≤ length bytes.now) }
    // The value and the bytes after it are those of reading as a function, or the refusal is.
    ensures exact { OfEachType plans.now id (λ S t. MatchResult result
        (λ x. read_of profile S 64 t false bytes.now ≡ Ok (view x.0, drop x.1 bytes.now))
        (λ fault. RefusesIfMemory fault (read_of profile S 64 t false bytes.now))) }
    // What is read is a reading.
    ensures found { OfEachType plans.now id
        (λ S t. IfOk result (λ x. Reads profile S 64 t (take x.1 bytes.now) (view x.0))) }
    // It has the type.
    ensures typed { OfEachType plans.now id (λ S t. IfOk result (λ x. HasType S t (view x.0))) }
    // It has at most 64 nodes for each byte that is used.
    ensures nodes { OfEachType plans.now id
        (λ S t. IfOk result (λ x. nodes_of (view x.0) ≤ 64 * x.1)) }
    // A front that is a reading is what is read, unless memory runs out.
    ensures only { OfEachType plans.now id (λ S t. (v : Data) (n : ℕ)
        → n ≤ length bytes.now → Reads profile S 64 t (take n bytes.now) v
        → MatchResult result (λ x. (view x.0 ≡ v) × (x.1 ≡ n)) (λ fault. fault ≡ NoMemory)) }
    // A refusal has the status of the first wrong item.
    ensures stopped { OfEachType plans.now id (λ S t. IfErr result (λ fault. IfSome
        (status_of fault) (λ s. Stop profile S 64 t bytes.now false s))) }
{
    let mut from = WordReader::new(profile, bytes);
    let value = read_from(alloc, plans, id, &mut from)?;
    Ok((value, from.position()))
}

/// Reads a value where a reader stands outside every record, by the reader's profile, as a value of the type that the id stands
/// for: what reading as a function gives of the bytes that are left, or its refusal.
pub fn read_from(
    alloc: Global,
    plans: &Plans,
    id: PlanId,
    from: &mut WordReader,
) -> Result<Value, ReadFault>
    requires { from.old.ends ≡ [] }
    ensures taken { OfEachType plans.now id (λ S t. TakesIfMemory view result
        (read_of from.old.profile S 64 t false (left from.old)) (left from.new)) }
    ensures on { OnOk result (MovesOn from.old from.new) }
{
    let mut plans = ParcelPlans::new(alloc, plans);
    value_from(alloc, &mut plans, id, 64, from)
}
