//! Words that spell a decimal number within bounds.
ghost use Rattle.std.specs.Prelude.{◌≡◌, ◌≤◌, ◌^◌, true, MatchOption};
ghost use Rattle.std.specs.Char.{is_ascii_digit};
ghost use Rattle.std.specs.List.{list_all};
ghost use Rattle.std.specs.Str.Parse.{digits_value};
ghost use Rattle.decimal_words.specs.Decimals as decimal;

/// The number that a word spells in decimal without a leading zero, where it lies between the two (own).
#[tactic(auto, unfolding(crate::specs::Decimals::number_within))]
pub fn number_within(low: u32, high: u32, word: &[u8]) -> Option<u32>
    ensures { result ≡ decimal.number_within low high word.now }
{
    if !is_decimal(word) {
        return None;
    }
    let value = value_of(word)?;
    if low <= value && value <= high {
        Some(value)
    } else {
        None
    }
}

// The value of the digits, where 32 bits hold it.
fn value_of(word: &[u8]) -> Option<u32>
    requires { decimal.is_decimal word.now ≡ true }
    ensures { MatchOption result (2 ^ 32 ≤ digits_value 10 word.now) (λ value. value
        ≡ digits_value 10 word.now) }
{
    match str::from_utf8(word) {
        Ok(text) => parsed(text),
        Err(_) => None,
    }
}

// The same of a text.
fn parsed(text: &str) -> Option<u32>
    requires { decimal.is_decimal text.now ≡ true }
    ensures { MatchOption result (2 ^ 32 ≤ digits_value 10 text.now) (λ value. value
        ≡ digits_value 10 text.now) }
{
    text.parse::<u32>().ok()
}

fn is_decimal(word: &[u8]) -> bool
    ensures { result ≡ decimal.is_decimal word.now }
{
    are_digits(word) && begins_well(word)
}

fn are_digits(word: &[u8]) -> bool
    ensures { result ≡ list_all is_ascii_digit word.now }
{
    word.iter().all(|b| b.is_ascii_digit())
}

// Whether the first byte isn't `0`, unless it is the only one.
fn begins_well(word: &[u8]) -> bool
    ensures { result ≡ decimal.begins_well word.now }
{
    match word {
        [] => false,
        [_] => true,
        [first, ..] => *first != b'0',
    }
}
