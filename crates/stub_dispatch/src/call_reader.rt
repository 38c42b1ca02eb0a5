//! The reader of a request or a reply, from its first byte to its last.
ghost use Rattle.std.specs.Prelude.{◌≡◌, false, take, OnOk};
ghost use Rattle.aidl_base.specs.Readings.{bytes_at, present_text_at, word_at};
ghost use Rattle.aidl_values.specs.View.{view};
ghost use Rattle.marshal_plans.specs.Standing.{OfEachType};
ghost use Rattle.parcel_words.specs.Taken.{Takes, TakesIfMemory};
ghost use Rattle.wire_model.specs.ReadOf.{count_at, read_of};

use aidl_base::{Profile, Text};
use aidl_values::Value;
use marshal_plans::{PlanId, Plans};
use parcel_read::read_from;
use parcel_words::{ReadFault, Wire, WordReader};
use std::alloc::Global;
use std::marker::Model;

/// A reader of the bytes of a call, outside every record. Contracts see the profile by which it reads and the bytes that are left.
#[derive(Drop)]
pub struct CallReader<'a> {
    profile: Profile,
    all: &'a [u8],
    from: WordReader<'a>,
}

impl<'a> Model for CallReader<'a> {
    ghost use Rattle.std.specs.Prelude.{◌≡◌, []};
    ghost use Rattle.parcel_words.specs.Place.{left};
    ghost use Rattle.stub_dispatch.specs.steps.Unread.{Unread, unread_code};

    ghost Value = { Unread };

    ghost coded = { unread_code };

    ghost view = { λ of. record { profile = of.from.profile; bytes = left of.from } };

    ghost invariant = { λ of. (of.from.ends ≡ []) × (of.from.bytes ≡ of.all.now) };
}

impl<'a> CallReader<'a> {
    /// A reader by the profile at the start of the bytes.
    pub fn new(profile: Profile, bytes: &'a [u8]) -> CallReader<'a>
        ensures { result ≡ record { profile = profile; bytes = bytes.now } }
    {
        CallReader {
            profile,
            all: bytes,
            from: WordReader::new(profile, bytes),
        }
    }

    /// The bytes that are left.
    pub fn rest(&self) -> &'a [u8]
        ensures { result.now ≡ self.now.bytes }
    {
        &self.all[self.from.position()..]
    }

    /// Passes eight bytes.
    pub fn pass_eight(&mut self) -> Result<(), ReadFault>
        ensures taken { Takes (λ _. take 8 self.old.bytes) result
            (bytes_at 8 false self.old.bytes) self.new.bytes }
        ensures same { OnOk result (self.new.profile ≡ self.old.profile) }
    {
        self.from.long()?;
        Ok(())
    }

    /// A word.
    pub fn word(&mut self) -> Result<i32, ReadFault>
        ensures taken { Takes (λ n. n) result (word_at false self.old.bytes) self.new.bytes }
        ensures same { OnOk result (self.new.profile ≡ self.old.profile) }
    {
        self.from.word()
    }

    /// A count, where None is null.
    pub fn count(&mut self, nullable: bool) -> Result<Option<usize>, ReadFault>
        ensures taken { Takes (λ n. n) result
            (count_at nullable false self.old.bytes) self.new.bytes }
        ensures same { OnOk result (self.new.profile ≡ self.old.profile) }
    {
        self.from.count(nullable)
    }

    /// A String that isn't null.
    pub fn text(&mut self, alloc: Global) -> Result<Text, ReadFault>
        ensures taken { TakesIfMemory (λ x. x) result
            (present_text_at self.old.profile false self.old.bytes) self.new.bytes }
        ensures same { OnOk result (self.new.profile ≡ self.old.profile) }
    {
        Text::take(alloc, &mut self.from)
    }

    /// A value of a type, by an id that stands for it.
    pub fn value(&mut self, alloc: Global, plans: &Plans, id: PlanId) -> Result<Value, ReadFault>
        ensures taken { OfEachType plans.now id (λ S t. TakesIfMemory view result
            (read_of self.old.profile S 64 t false self.old.bytes) self.new.bytes) }
        ensures same { OnOk result (self.new.profile ≡ self.old.profile) }
    {
        match read_from(alloc, plans, id, &mut self.from) {
            Ok(value) => Ok(value),
            Err(fault) => {
                // What was refused may have left records open.
                self.from = WordReader::new(self.profile, self.all);
                Err(fault)
            }
        }
    }
}
