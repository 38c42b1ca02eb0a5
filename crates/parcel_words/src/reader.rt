//! The reader of a parcel: words, longs, raw bytes, counts, texts and records off the front of its bytes.
ghost use Rattle.std.specs.Prelude.{◌≡◌, ℕ, ◌+◌, ◌^◌, ◌<◌, ◌≤◌, [], ◌∷◌, true, IsTrue, ◌↔◌, length, MatchResult, IfOk, IfErr, OnOk, OnErr, IfSome, drop};
ghost use Rattle.aidl_base.specs.Profiles.{permits};
ghost use Rattle.aidl_base.specs.Words.{padding};
ghost use Rattle.aidl_base.specs.Readings.{bytes_at, word_at, long_at, raw_at, count_of, count_at, block_at, text_at, past, size_of};
ghost use Rattle.parcel_words.specs.Place.{limit, left, here, moved, moved_back, MovesOn, is_inside, size_at, Enters, closed, opened};
ghost use Rattle.parcel_words.specs.Taken.{Takes, TakesIfMemory, Refuses, status_of};

use crate::fault::ReadFault;
use crate::padding::{is_zero, padding_of};
use crate::units::text_of;
use aidl_base::{Profile, Text};
use std::alloc::Global;
use std::marker::Model;

/// A cursor over the bytes of a parcel, with the ends of the records that are open, at most 64. Contracts see the
/// profile by which it reads, the bytes, the position and those ends.
#[derive(Drop)]
pub struct WordReader<'a> {
    profile: Profile,
    bytes: &'a [u8],
    position: usize,
    end: usize,
    outer: [usize; 64],
    open: usize,
}

impl<'a> Model for WordReader<'a> {
    ghost use Rattle.parcel_words.specs.Place.{Place, place_code};

    ghost Value = { Place };

    ghost coded = { place_code };

    ghost use Rattle.parcel_words.specs.Fields.{place_of, IsPlace};

    ghost view = { place_of };

    ghost invariant = { IsPlace };
}

impl<'a> WordReader<'a> {
    /// A reader by the profile at the start of the bytes, with no record open.
    pub fn new(profile: Profile, bytes: &'a [u8]) -> WordReader<'a>
        ensures { result ≡ record {
          profile = profile;
          bytes = bytes.now;
          position = 0;
          ends = [];
        } }
    {
        WordReader {
            profile,
            bytes,
            position: 0,
            end: bytes.len(),
            outer: [0; 64],
            open: 0,
        }
    }

    /// The number of bytes passed. They are within the limit, and the limit is within the bytes.
    pub fn position(&self) -> usize
        ensures value { result ≡ self.now.position }
        ensures within { result ≤ limit self.now }
        ensures whole { limit self.now ≤ length self.now.bytes }
    {
        self.position
    }

    /// Whether the reader's profile takes an item, by whether it is as it would be written.
    pub fn permits(&self, as_written: bool) -> bool
        ensures { result ≡ permits self.now.profile as_written }
    {
        self.profile.permits(as_written)
    }

    /// Takes a word, four bytes, as a signed number. It refuses exactly a word that passes the limit: by `NotEnough`
    /// where no record is open, by `BadValue` where one is.
    pub fn word(&mut self) -> Result<i32, ReadFault>
        ensures taken { Takes (λ n. n) result (here word_at self.old) (left self.new) }
        ensures passed { OnOk result (self.new ≡ moved self.old 4) }
        ensures on { OnOk result (MovesOn self.old self.new) }
        ensures unchanged { OnErr result (self.new ≡ self.old) }
    {
        let number = self.next_word()?;
        self.pass(4);
        Ok(number)
    }

    /// Takes a long, eight bytes, as a signed number. It refuses as `word` does.
    pub fn long(&mut self) -> Result<i64, ReadFault>
        ensures taken { Takes (λ n. n) result (here long_at self.old) (left self.new) }
        ensures passed { OnOk result (self.new ≡ moved self.old 8) }
        ensures on { OnOk result (MovesOn self.old self.new) }
        ensures unchanged { OnErr result (self.new ≡ self.old) }
    {
        let item = self.item(8)?;
        let number = i64::from_le_bytes([
            item[0], item[1], item[2], item[3], item[4], item[5], item[6], item[7],
        ]);
        self.pass(8);
        Ok(number)
    }

    /// Takes `count` raw bytes with their padding, and answers them without it. It refuses as `word` does, and by
    /// `BadValue` where the item is inside the limit and the profile doesn't permit its padding.
    #[tactic(auto, unfolding(aidl_base::specs::Readings::raw_at))]
    pub fn raw(&mut self, count: usize) -> Result<&'a [u8], ReadFault>
        ensures taken { Takes (λ x. x.now) result
            (here (raw_at self.old.profile count) self.old) (left self.new) }
        ensures passed { OnOk result (self.new ≡ moved self.old (count + padding count)) }
        ensures on { OnOk result (MovesOn self.old self.new) }
        ensures unchanged { OnErr result (self.new ≡ self.old) }
    {
        if self.rest().len() < count {
            return Err(self.past());
        }
        let size = count + padding_of(count);
        let (bytes, padding) = self.item(size)?.split_at(count);
        if !self.permits(is_zero(padding)) {
            return Err(ReadFault::BadValue);
        }
        self.pass(size);
        Ok(bytes)
    }

    /// Takes a count, where None is null. It refuses as `word` does; by `UnexpectedNull` a count of
    /// -1 unless it may be null; and by `BadValue` another negative one.
    #[tactic(auto, unfolding(aidl_base::specs::Readings::count_at))]
    pub fn count(&mut self, nullable: bool) -> Result<Option<usize>, ReadFault>
        ensures taken { Takes (λ n. n) result
            (count_at nullable (is_inside self.old) (left self.old)) (left self.new) }
        ensures small { IfOk result (λ n. IfSome n (λ k. k < 2 ^ 31)) }
        ensures passed { OnOk result (self.new ≡ moved self.old 4) }
        ensures on { OnOk result (MovesOn self.old self.new) }
        ensures unchanged { OnErr result (self.new ≡ self.old) }
    {
        let word = self.next_word()?;
        if word < -1 {
            return Err(ReadFault::BadValue);
        }
        if word == -1 && !nullable {
            return Err(ReadFault::UnexpectedNull);
        }
        self.pass(4);
        if word == -1 {
            Ok(None)
        } else {
            Ok(Some(word as usize))
        }
    }

    /// Takes a text of at most 2147483647 units, where None is null. It refuses as `word` does; by `UnexpectedNull` a
    /// count of -1 unless it may be null; and by `BadValue` another negative count, and a block inside the limit whose
    /// units aren't well-formed UTF-16, whose next unit isn't zero, or whose padding the profile doesn't permit.
    #[tactic(auto, using(crate::proofs::lemmas::Moves::on_and_on), unfolding(aidl_base::specs::Readings::text_at))]
    pub fn text(&mut self, alloc: Global, nullable: bool) -> Result<Option<Text>, ReadFault>
        ensures taken { TakesIfMemory (λ x. x) result
            (here (text_at self.old.profile nullable) self.old) (left self.new) }
        ensures passed { OnOk result (MovesOn self.old self.new) }
        ensures unchanged { OnErr result (self.new ≡ self.old) }
    {
        let Some(units) = self.count(nullable)? else {
            return Ok(None);
        };
        match self.block(alloc, units) {
            Ok(text) => Ok(Some(text)),
            Err(fault) => {
                self.go_back(4);
                Err(fault)
            }
        }
    }

    /// Takes a size word and opens its record. It refuses a word that passes the limit as `word` does, a size below 4
    /// or no multiple of 4 by `BadValue`, and a size that passes the limit as an item that does.
    #[tactic(auto, unfolding(crate::specs::Place::size_at))]
    pub fn enter(&mut self) -> Result<(), ReadFault>
        requires { length self.old.ends < 64 }
        ensures entered { OnOk result (Enters self.old self.new) }
        ensures refused { IfErr result (λ e. Refuses e (here size_at self.old)) }
        ensures unchanged { OnErr result (self.new ≡ self.old) }
    {
        let word = self.next_word()?;
        if word < 4 || word % 4 != 0 {
            return Err(ReadFault::BadValue);
        }
        let size = word as usize;
        if self.rest().len() < size {
            return Err(self.past());
        }
        self.open_record(size);
        Ok(())
    }

    /// Whether the position is the end of the innermost record.
    pub fn at_end(&self) -> bool
        requires { is_inside self.now ≡ true }
        ensures end { IsTrue result ↔ (self.now.position ≡ limit self.now) }
        ensures none_left { IsTrue result ↔ (left self.now ≡ []) }
    {
        self.position == self.end
    }

    /// Goes to the end of the innermost record, whatever bytes stand between, and closes it.
    pub fn leave(&mut self)
        requires { is_inside self.old ≡ true }
        ensures { self.new ≡ closed self.old }
    {
        self.open -= 1;
        self.position = self.end;
        self.end = self.outer[self.open];
    }

    /// Goes back by so many bytes, for a caller that refuses what it has begun.
    pub(crate) fn go_back(&mut self, count: usize)
        requires { count ≤ self.old.position }
        ensures { self.new ≡ moved_back self.old count }
    {
        self.position -= count;
    }

    /// Takes the block of a text of so many units. It refuses as `text` does once its count is read.
    #[tactic(auto, unfolding(aidl_base::specs::Readings::block_at))]
    pub fn block(&mut self, alloc: Global, units: usize) -> Result<Text, ReadFault>
        requires { units < 2 ^ 31 }
        ensures taken { TakesIfMemory (λ x. x) result
            (here (block_at self.old.profile units) self.old) (left self.new) }
        ensures passed { OnOk result (MovesOn self.old self.new) }
        ensures unchanged { OnErr result (self.new ≡ self.old) }
    {
        let bytes = 2 * (units + 1);
        let size = bytes + padding_of(bytes);
        let item = self.item(size)?;
        let text = text_of(alloc, self.profile, units, item)?.ok_or(ReadFault::BadValue)?;
        self.pass(size);
        Ok(text)
    }

    /// The bytes up to the limit.
    fn rest(&self) -> &'a [u8]
        ensures rest { result.now ≡ left self.now }
    {
        &self.bytes[self.position..self.end]
    }

    /// The refusal of an item that passes the limit.
    fn past(&self) -> ReadFault
        ensures { status_of result ≡ Some (past (is_inside self.now)) }
    {
        if self.open == 0 {
            ReadFault::NotEnough
        } else {
            ReadFault::BadValue
        }
    }

    /// The next item, of so many bytes.
    fn item(&self, size: usize) -> Result<&'a [u8], ReadFault>
        ensures { Takes (λ x. x.now) result (here (bytes_at size) self.now)
            (drop size (left self.now)) }
    {
        let rest = self.rest();
        if rest.len() < size {
            return Err(self.past());
        }
        Ok(&rest[..size])
    }

    /// The next word, which is not passed. It refuses as `word` does.
    pub(crate) fn next_word(&self) -> Result<i32, ReadFault>
        ensures { Takes (λ n. n) result (here word_at self.now) (drop 4 (left self.now)) }
    {
        let item = self.item(4)?;
        Ok(i32::from_le_bytes([item[0], item[1], item[2], item[3]]))
    }

    /// Goes on by so many bytes of those that are left.
    pub(crate) fn pass(&mut self, count: usize)
        requires { count ≤ length (left self.old) }
        ensures passed { self.new ≡ moved self.old count }
        ensures rest { left self.new ≡ drop count (left self.old) }
        ensures on { MovesOn self.old self.new }
    {
        self.position += count;
    }

    /// Opens a record of this size at the position.
    fn open_record(&mut self, size: usize)
        requires room { length self.old.ends < 64 }
        requires least { 4 ≤ size }
        requires fits { size ≤ length (left self.old) }
        ensures { self.new ≡ opened self.old size }
    {
        self.outer[self.open] = self.end;
        self.open += 1;
        self.end = self.position + size;
        self.position += 4;
    }
}
