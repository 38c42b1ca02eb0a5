//! The writer of a parcel: words, longs, raw bytes, counts, texts and records, behind those that were written before.
ghost use Rattle.std.specs.Prelude.{◌≡◌, ◌+◌, ◌-◌, ◌^◌, ◌<◌, ◌≤◌, pos, [], ◌∷◌, length, map, IfOk, replicate};
ghost use Rattle.std.specs.Int.{w16, to_le_bytes};
ghost use Rattle.std.specs.Str.{chars};
ghost use Rattle.std.specs.Char.Escape.{encode_utf16};
ghost use Rattle.aidl_base.specs.Words.{word, long_word, pad, padding, units, unit_bytes, block};
ghost use Rattle.aidl_base.specs.Spellings.{spell_nullable_text};
ghost use Rattle.parcel_words.specs.Written.{with_bytes, with_size, scalars, nullable_scalars};

use crate::padding::padding_of;
use aidl_base::OutOfMemory;
use std::alloc::Global;
use std::marker::Model;

// So many units are put at once.
const MANY: usize = 16;

/// A row of words that is written into room which was taken before. Contracts see the bytes written, and the number
/// of bytes for which room is left.
#[derive(Drop)]
pub struct WordWriter {
    bytes: Vec<u8>,
    room: usize,
}

impl Model for WordWriter {
    ghost use Rattle.parcel_words.specs.Written.{Written, written_code};

    ghost Value = { Written };

    ghost coded = { written_code };

    ghost use Rattle.parcel_words.specs.Room.{written_of, HasRoom};

    ghost view = { written_of };

    ghost invariant = { HasRoom };
}

impl WordWriter {
    /// A writer of so many bytes, none of which is written yet. It takes the whole room.
    pub fn with_room(alloc: Global, bytes: usize) -> Result<WordWriter, OutOfMemory>
        ensures { IfOk result (λ w. w ≡ record { bytes = []; room = bytes }) }
    {
        Ok(WordWriter {
            bytes: Vec::with_capacity(alloc, bytes)?,
            room: bytes,
        })
    }

    /// Appends a word, four bytes.
    pub fn word(&mut self, n: i32)
        requires { 4 ≤ self.old.room }
        ensures { self.new ≡ with_bytes self.old (word n) }
    {
        self.append(&n.to_le_bytes());
    }

    /// Appends a long, eight bytes.
    pub fn long(&mut self, n: i64)
        requires { 8 ≤ self.old.room }
        ensures { self.new ≡ with_bytes self.old (long_word n) }
    {
        self.append(&n.to_le_bytes());
    }

    /// Appends the count of a text's units or of a sequence's items, a word.
    pub fn count(&mut self, count: usize)
        requires few { count < 2 ^ 31 }
        requires room { 4 ≤ self.old.room }
        ensures { self.new ≡ with_bytes self.old (word (pos count)) }
    {
        self.word(count as i32);
    }

    /// Appends a text as the count of its UTF-16 units and its block, or null as the word -1.
    pub fn text(&mut self, text: Option<&str>)
        requires few { length (units (scalars text)) ≤ 2147483647 }
        requires room { length (spell_nullable_text (nullable_scalars text)) ≤ self.old.room }
        ensures { self.new
            ≡ with_bytes self.old (spell_nullable_text (nullable_scalars text.entry)) }
    {
        match text {
            None => self.word(-1),
            Some(text) => {
                let count = unit_count(text);
                self.count(count);
                self.block(text, count);
            }
        }
    }

    /// Appends raw bytes and their padding, without a count.
    pub fn raw(&mut self, bytes: &[u8])
        requires { length (pad bytes.now) ≤ self.old.room }
        ensures { self.new ≡ with_bytes self.old (pad bytes.now) }
    {
        self.append(bytes);
        self.padding(bytes.len());
    }

    /// Appends one raw byte.
    pub fn byte(&mut self, n: u8)
        requires { 0 < self.old.room }
        ensures { self.new ≡ with_bytes self.old (n ∷ []) }
    {
        self.append(&[n]);
    }

    /// Appends the padding of an item of so many bytes.
    pub fn padding(&mut self, len: usize)
        requires { padding len ≤ self.old.room }
        ensures { self.new ≡ with_bytes self.old (replicate (padding len) 0) }
    {
        self.append(&[0; 3][..padding_of(len)]);
    }

    /// Begins a record: appends a size word, which `close_record` sets, and answers the position of it, in bytes.
    pub fn open_record(&mut self) -> usize
        requires { 4 ≤ self.old.room }
        ensures start { result ≡ length self.old.bytes }
        ensures written { self.new ≡ with_bytes self.old (word (pos 0)) }
    {
        let start = self.bytes.len();
        self.word(0);
        start
    }

    /// Ends the record that began at the position: sets its size word to the number of bytes from there on, itself
    /// counted (as a generated `writeToParcel` does).
    pub fn close_record(&mut self, start: usize)
        requires whole { start + 4 ≤ length self.old.bytes }
        requires small { length self.old.bytes - start < 2 ^ 31 }
        ensures { self.new ≡ with_size self.old start }
    {
        let size = (self.bytes.len() - start) as i32;
        self.bytes[start..start + 4].copy_from_slice(&size.to_le_bytes());
    }

    /// The bytes written.
    pub fn finish(self) -> Vec<u8>
        ensures { result.items ≡ self.bytes }
    {
        self.bytes
    }

    /// Appends the block of a text of so many units: the units, a zero unit and the padding.
    fn block(&mut self, text: &str, count: usize)
        requires units { count ≡ length (units (chars text.now)) }
        requires few { count < 2 ^ 31 }
        requires room { length (block (chars text.now)) ≤ self.old.room }
        ensures { self.new ≡ with_bytes self.old (block (chars text.now)) }
    {
        self.units(text);
        self.append(&[0; 5][..2 + padding_of(2 * (count + 1))]);
    }

    /// Appends the units of a text. Those of ASCII are its bytes.
    #[tactic(auto, using(crate::proofs::Ascii::ascii_text_units))]
    fn units(&mut self, text: &str)
        requires { length (unit_bytes (units (chars text.now))) ≤ self.old.room }
        ensures { self.new ≡ with_bytes self.old (unit_bytes (units (chars text.now))) }
    {
        if text.is_ascii() {
            return self.narrow(text.as_bytes());
        }
        for c in text.chars() {
            self.character(c);
        }
    }

    /// Appends units below 256, many at once.
    fn narrow(&mut self, units: &[u8])
        requires { length (unit_bytes units.now) ≤ self.old.room }
        ensures { self.new ≡ with_bytes self.old (unit_bytes units.now) }
    {
        let mut rest = units;
        while rest.len() > MANY {
            let (front, after) = rest.split_at(MANY);
            self.narrow_few(front);
            rest = after;
        }
        self.narrow_few(rest);
    }

    /// The same of a few.
    #[tactic(auto, using(crate::proofs::lemmas::Appends::flattened))]
    fn narrow_few(&mut self, units: &[u8])
        requires few { length units.now ≤ 16 }
        requires room { length (unit_bytes units.now) ≤ self.old.room }
        ensures { self.new ≡ with_bytes self.old (unit_bytes units.now) }
    {
        let mut pairs = [[0; 2]; MANY];
        let front = &mut pairs[..units.len()];
        put_pairs(units, front);
        self.append(front.as_flattened());
    }

    /// Appends the units of a character, one or two.
    fn character(&mut self, c: char)
        requires { length (unit_bytes (encode_utf16 c)) ≤ self.old.room }
        ensures { self.new ≡ with_bytes self.old (unit_bytes (encode_utf16 c)) }
    {
        let code = u32::from(c);
        if code < 0x1_0000 {
            self.append(&(code as u16).to_le_bytes());
        } else {
            let mut buffer = [0; 2];
            self.row(c.encode_utf16(&mut buffer));
        }
    }

    /// Appends a row of units.
    fn row(&mut self, units: &[u16])
        requires { length (unit_bytes units.now) ≤ self.old.room }
        ensures { self.new ≡ with_bytes self.old (unit_bytes units.now) }
    {
        for unit in units {
            self.append(&unit.to_le_bytes());
        }
    }

    /// Appends bytes. The room for them was taken, so the vector has it.
    fn append(&mut self, bytes: &[u8])
        requires { length bytes.now ≤ self.old.room }
        ensures { self.new ≡ with_bytes self.old bytes.now }
    {
        match self.bytes.extend_from_slice(bytes) {
            Ok(()) => self.room -= bytes.len(),
            Err(_) => unreachable!(),
        }
    }
}

// Puts units below 256 two bytes each.
fn put_pairs(units: &[u8], pairs: &mut [[u8; 2]])
    requires { length units.now ≡ length pairs.old }
    ensures { pairs.new ≡ map (to_le_bytes w16) units.now }
{
    for i in 0..units.len() {
        pairs[i] = u16::from(units[i]).to_le_bytes();
    }
}

/// The number of UTF-16 units of a text.
#[tactic(auto, using(crate::proofs::Ascii::ascii_text_units))]
pub fn unit_count(text: &str) -> usize
    ensures count { result ≡ length (units (chars text.now)) }
    ensures small { result < 2 ^ 63 }
{
    if text.is_ascii() {
        return text.len();
    }
    let mut count = 0;
    for c in text.chars() {
        count += c.len_utf16();
    }
    count
}
