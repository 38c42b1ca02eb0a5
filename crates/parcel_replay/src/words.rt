//! The words of a request's line.
ghost use Rattle.std.specs.Prelude.{◌≡◌, ◌<◌, ◌==◌, List, ℕ, Option, Some, IfSome, MatchOption, drop, false, length, option_map, true};
ghost use Rattle.std.specs.List.{position};
ghost use Rattle.parcel_replay.specs.Traced as traced;

use crate::parcels::is_parcel;
use decimal_words::number_within;

/// The code, and the word of the bytes that were delivered, of `CODE SENT DELIVERED` with single blanks.
#[tactic(auto, unfolding(crate::specs::Traced::request_of))]
pub fn request_of(text: &[u8]) -> Option<(u32, &[u8])>
    ensures { option_map {U = ℕ × Option (List ℕ)} (λ p. (p.0, traced.bytes_of p.1.now)) result
        ≡ option_map {U = ℕ × Option (List ℕ)} (λ r. (r.0, Some r.1)) (traced.request_of text.now) }
{
    let (word, rest) = word_at(text)?;
    let code = code_of(word)?;
    let (sent, delivered) = word_at(rest)?;
    if is_parcel(sent) && is_parcel(delivered) {
        Some((code, delivered))
    } else {
        None
    }
}

/// What stands behind `request `, where a line begins so.
pub fn request_text(line: &[u8]) -> Option<&[u8]>
    ensures { MatchOption result (traced.is_request line.now
        ≡ false) (λ text. (traced.is_request line.now ≡ true) × (text.now ≡ drop 8 line.now)) }
{
    line.strip_prefix(b"request ".as_slice())
}

/// The code of a request's line; of any other line maybe None.
pub fn recorded_code(line: &[u8]) -> Option<u32>
    ensures { (code : ℕ) (b : List ℕ) → traced.traced line.now ≡ traced.request code b
        → result ≡ Some code }
{
    match request_text(line) {
        Some(text) => first_code(text),
        None => None,
    }
}

// The code of what stands behind `request `.
#[tactic(auto, using(crate::proofs::Codes::first_code, crate::proofs::Codes::some_word))]
fn first_code(text: &[u8]) -> Option<u32>
    ensures { (code : ℕ) (b : List ℕ) → traced.request_of text.now ≡ Some (code, b)
        → result ≡ Some code }
{
    match word_at(text) {
        Some((word, _)) => code_of(word),
        None => None,
    }
}

// The code that a word spells.
fn code_of(word: &[u8]) -> Option<u32>
    ensures { result ≡ traced.code_of word.now }
{
    number_within(0, u32::MAX, word)
}

// The word up to the first blank, and what stands behind that blank.
#[tactic(auto, unfolding(crate::specs::Traced::word_at))]
fn word_at(text: &[u8]) -> Option<(&[u8], &[u8])>
    ensures { option_map {U = List ℕ × List ℕ} (λ p. (p.0.now, p.1.now)) result
        ≡ traced.word_at text.now }
{
    match blank_at(text) {
        Some(end) => Some((&text[..end], &text[end + 1..])),
        None => None,
    }
}

// Where the first blank stands.
fn blank_at(text: &[u8]) -> Option<usize>
    ensures first { result ≡ position (λ b. b == 32) text.now }
    ensures within { IfSome result (λ end. end < length text.now) }
{
    text.iter().position(|b| *b == b' ')
}
