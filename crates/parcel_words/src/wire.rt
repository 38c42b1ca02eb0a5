//! Values of boolean, byte, char, int, long and String as words: how each is counted, written and read.
ghost use Rattle.std.specs.Prelude.{◌≡◌, ◌^◌, ◌<◌, ◌≤◌, true, pos, ℤ, ℕ, List, [], ◌++◌, Bool, Ok, length, min, OnOk, OnErr, FitsSigned};
ghost use Rattle.std.specs.Int.{w8, w32, w64};
ghost use Rattle.std.specs.Str.{all_scalars};
ghost use Rattle.aidl_base.specs.declared.profile.Profile.{Profile};
ghost use Rattle.aidl_base.specs.Words.{word, long_word, units};
ghost use Rattle.aidl_base.specs.Spellings.{spell_truth, spell_text};
ghost use Rattle.aidl_base.specs.Readings.{Read, truth_at, byte_at, char_at, word_at, long_at, present_text_at};
ghost use Rattle.parcel_words.specs.Place.{left, here, MovesOn};
ghost use Rattle.parcel_words.specs.Taken.{TakesIfMemory};
ghost use Rattle.parcel_words.specs.Written.{with_bytes};

use crate::fault::ReadFault;
use crate::reader::WordReader;
use crate::writer::{WordWriter, unit_count};
use aidl_base::{Range, Text};
use std::alloc::Global;

/// A value of a built-in type, as words of a parcel.
pub trait Wire: Sized + Drop {
    // what every value of the type is: a number of its range, or a text of characters
    ghost is_value: { Self → Type 0 };

    // the values that can be put: all, but of texts those of at most 2147483647 units
    ghost can_put: { Self → Type 0 };

    // the bytes that spell a value
    ghost spelling: { Self → List ℕ };

    // the value at the front of bytes by a profile, where a record is open or none is
    ghost reading: { Profile → Bool → List ℕ → Read Self };

    /// The number of bytes of the spelling, or `usize::MAX` where they are more.
    fn length(&self) -> usize
        ensures { result ≡ min (length (spelling self.now)) usize.MAX };

    /// Appends the spelling.
    fn put(&self, to: &mut WordWriter)
        requires can { can_put self.now }
        requires room { length (spelling self.now) ≤ to.old.room }
        ensures { to.new ≡ with_bytes to.old (spelling self.now) };

    /// Takes a value. It refuses exactly by the rules of its type.
    fn take(alloc: Global, from: &mut WordReader) -> Result<Self, ReadFault>
        ensures taken { TakesIfMemory (λ x. x) result
            (here (reading from.old.profile) from.old) (left from.new) }
        ensures passed { OnOk result (MovesOn from.old from.new) }
        ensures unchanged { OnErr result (from.new ≡ from.old) };

    // what was put is taken again by either profile, whatever follows it
    ghost taken_again: { (x : Self) (p : Profile) (inside : Bool) (rest : List ℕ) → is_value x → can_put x
        → reading p inside (spelling x ++ rest) ≡ Ok (x, rest) };

    // no spelling is a proper prefix of another
    ghost no_prefix: { (x y : Self) (rest : List ℕ) → is_value x → can_put x → is_value y → can_put y
        → spelling x ++ rest ≡ spelling y → rest ≡ [] };
}

/// A boolean: one word, 0 or 1. By the strict profile any other word is refused by `BadValue`; by the lenient one it is
/// true.
impl Wire for bool {
    ghost is_value = { λ _. Unit {0} };

    ghost can_put = { λ _. Unit {0} };

    ghost spelling = { spell_truth };

    ghost reading = { truth_at };

    fn length(&self) -> usize {
        4
    }

    fn put(&self, to: &mut WordWriter) {
        to.word(i32::from(*self));
    }

    #[tactic(auto, unfolding(aidl_base::specs::Readings::word_as))]
    fn take(_alloc: Global, from: &mut WordReader) -> Result<bool, ReadFault> {
        let word = from.next_word()?;
        if !from.permits(0 <= word && word <= 1) {
            return Err(ReadFault::BadValue);
        }
        from.pass(4);
        Ok(word != 0)
    }

    ghost use Rattle.aidl_base.proofs.lemmas.Values.{truth_again, truth_prefix};

    ghost taken_again = { λ x p inside rest _ _. truth_again p x inside rest };

    ghost no_prefix = { λ x y rest _ _ _ _. truth_prefix x y rest };
}

/// A byte: one word, the sign-extended byte. By the strict profile a word outside -128 to 127 is refused by `BadValue`;
/// by the lenient one its least 8 bits are the byte.
impl Wire for i8 {
    ghost is_value = { λ n. FitsSigned w8 n };

    ghost can_put = { λ _. Unit {0} };

    ghost spelling = { word };

    ghost reading = { byte_at };

    fn length(&self) -> usize {
        4
    }

    fn put(&self, to: &mut WordWriter) {
        to.word(i32::from(*self));
    }

    #[tactic(auto, unfolding(aidl_base::specs::Readings::word_as))]
    fn take(_alloc: Global, from: &mut WordReader) -> Result<i8, ReadFault> {
        let word = from.next_word()?;
        if !from.permits(Range::Byte.has(i64::from(word))) {
            return Err(ReadFault::BadValue);
        }
        from.pass(4);
        let low = (word.cast_unsigned() % 256) as u8;
        Ok(low.cast_signed())
    }

    ghost use Rattle.aidl_base.proofs.lemmas.Values.{byte_again, byte_prefix};

    ghost taken_again = { λ x p inside rest value _. byte_again p x inside rest value };

    ghost no_prefix = { λ x y rest first _ second _. byte_prefix x y rest first second };
}

/// A char, as a code unit: one word. By the strict profile a word outside 0 to 65535 is refused by `BadValue`; by the
/// lenient one its least 16 bits are the char.
impl Wire for u16 {
    ghost is_value = { λ n. n < 2 ^ 16 };

    ghost can_put = { λ _. Unit {0} };

    ghost spelling = { λ n. word (pos n) };

    ghost reading = { char_at };

    fn length(&self) -> usize {
        4
    }

    fn put(&self, to: &mut WordWriter) {
        to.word(i32::from(*self));
    }

    #[tactic(auto, unfolding(aidl_base::specs::Readings::word_as))]
    fn take(_alloc: Global, from: &mut WordReader) -> Result<u16, ReadFault> {
        let word = from.next_word()?;
        if !from.permits(Range::Char.has(i64::from(word))) {
            return Err(ReadFault::BadValue);
        }
        from.pass(4);
        Ok((word.cast_unsigned() % 65_536) as u16)
    }

    ghost use Rattle.aidl_base.proofs.lemmas.Values.{char_again, char_prefix};

    ghost taken_again = { λ x p inside rest value _. char_again p x inside rest value };

    ghost no_prefix = { λ x y rest first _ second _. char_prefix x y rest first second };
}

/// An int: one word.
impl Wire for i32 {
    ghost is_value = { λ n. FitsSigned w32 n };

    ghost can_put = { λ _. Unit {0} };

    ghost spelling = { word };

    ghost reading = { λ _ inside b. word_at inside b };

    fn length(&self) -> usize {
        4
    }

    fn put(&self, to: &mut WordWriter) {
        to.word(*self);
    }

    fn take(_alloc: Global, from: &mut WordReader) -> Result<i32, ReadFault> {
        from.word()
    }

    ghost use Rattle.aidl_base.proofs.lemmas.Words.{word_again};
    ghost use Rattle.aidl_base.proofs.lemmas.Values.{word_prefix};

    ghost taken_again = { λ x _ inside rest value _. word_again x inside rest value };

    ghost no_prefix = { λ x y rest first _ second _. word_prefix x y rest first second };
}

/// A long: eight bytes.
impl Wire for i64 {
    ghost is_value = { λ n. FitsSigned w64 n };

    ghost can_put = { λ _. Unit {0} };

    ghost spelling = { long_word };

    ghost reading = { λ _ inside b. long_at inside b };

    fn length(&self) -> usize {
        8
    }

    fn put(&self, to: &mut WordWriter) {
        to.long(*self);
    }

    fn take(_alloc: Global, from: &mut WordReader) -> Result<i64, ReadFault> {
        from.long()
    }

    ghost use Rattle.aidl_base.proofs.lemmas.Words.{long_again};
    ghost use Rattle.aidl_base.proofs.lemmas.Values.{long_prefix};

    ghost taken_again = { λ x _ inside rest value _. long_again x inside rest value };

    ghost no_prefix = { λ x y rest first _ second _. long_prefix x y rest first second };
}

/// A text: the count of its UTF-16 units, and its block. Null is refused by `UnexpectedNull`.
impl Wire for Text {
    ghost is_value = { λ x. all_scalars x ≡ true };

    ghost can_put = { λ x. length (units x) ≤ 2147483647 };

    ghost spelling = { spell_text };

    ghost reading = { present_text_at };

    fn length(&self) -> usize {
        (unit_count(self.as_str()) / 2 + 2).saturating_mul(4)
    }

    fn put(&self, to: &mut WordWriter) {
        to.text(Some(self.as_str()));
    }

    #[tactic(auto, unfolding(aidl_base::specs::Readings::present_text_at))]
    fn take(alloc: Global, from: &mut WordReader) -> Result<Text, ReadFault> {
        match from.text(alloc, false)? {
            Some(text) => Ok(text),
            None => unreachable!(),
        }
    }

    ghost use Rattle.aidl_base.proofs.lemmas.Spelled.{present_text_again, text_prefix};

    ghost taken_again = { λ x p inside rest value can. present_text_again p x inside rest value can };

    ghost no_prefix = { λ x y rest first can second may. text_prefix x y rest first can second may };
}
