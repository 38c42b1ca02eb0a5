//! Number literals, decimal and hexadecimal, with their suffix.
ghost use Rattle.std.specs.Prelude.{◌≡◌, ◌≤◌, ◌+◌, ◌*◌, ◌<◌, length, take};
ghost use Rattle.std.specs.List.{prefix_len};
ghost use Rattle.std.specs.Char.{is_ascii_digit, is_ascii_hexdigit};
ghost use Rattle.aidl_syntax.specs.Numbers as number;
ghost use Rattle.aidl_lexer.specs.steps.Reading as read;

use crate::bytes::{begins_with, digits_len, hex_digits_len};
use crate::fault::FaultKind;
use crate::fronts::Front;
use crate::words::word_of;
use aidl_syntax::TokenKind;

// The number at the front.
#[tactic(auto, unfolding(crate::specs::steps::Reading::number_at))]
pub fn number_at(bytes: &[u8]) -> Front
    ensures { result ≡ read.number_at bytes.now }
{
    let text = word_of(bytes);
    match numeral_of(text) {
        Some(number) => Front::Token(number, text.len()),
        None => Front::Fault(FaultKind::BadNumber),
    }
}

fn numeral_of(text: &[u8]) -> Option<TokenKind>
    ensures { result ≡ read.numeral_of text.now }
{
    match text {
        [a, x, digits @ ..] => if *a == b'0' && (*x == b'x' || *x == b'X') {
            hexadecimal_by(digits)
        } else {
            decimal_by(text)
        },
        _ => decimal_by(text),
    }
}

#[tactic(auto, unfolding(crate::specs::steps::Reading::decimal_by))]
fn decimal_by(text: &[u8]) -> Option<TokenKind>
    ensures { result ≡ read.decimal_by text.now }
{
    let len = digits_len(text);
    numeral(false, decimal_of(&text[..len]), suffix_of(&text[len..]))
}

// Of what follows `0x`.
#[tactic(auto, unfolding(crate::specs::steps::Reading::hexadecimal_by))]
fn hexadecimal_by(text: &[u8]) -> Option<TokenKind>
    ensures { result ≡ read.hexadecimal_by text.now }
{
    let len = hex_digits_len(text);
    numeral(true, hexadecimal_of(&text[..len]), suffix_of(&text[len..]))
}

fn numeral(hexadecimal: bool, bits: Option<u64>, suffix: Option<bool>) -> Option<TokenKind>
    ensures { result ≡ read.numeral hexadecimal bits suffix }
{
    match (bits, suffix) {
        (Some(bits), Some(long)) => Some(TokenKind::Number {
            bits,
            hexadecimal,
            long,
        }),
        _ => None,
    }
}

fn decimal_of(body: &[u8]) -> Option<u64>
    ensures { result ≡ read.decimal_of body.now }
{
    if begins_with(body, b'0') && 1 < body.len() {
        None
    } else {
        up_to_long(value_of(10, body))
    }
}

fn hexadecimal_of(digits: &[u8]) -> Option<u64>
    ensures { result ≡ read.hexadecimal_of digits.now }
{
    if 0 < digits.len() {
        value_of(16, digits)
    } else {
        None
    }
}

// Whether `L` or `l` stands; None for anything else.
fn suffix_of(bytes: &[u8]) -> Option<bool>
    ensures { result ≡ read.suffix_of bytes.now }
{
    match bytes {
        [] => Some(false),
        [b] => if *b == b'L' || *b == b'l' {
            Some(true)
        } else {
            None
        },
        _ => None,
    }
}

// A value that is no more than that of a signed number of 64 bits.
fn up_to_long(value: Option<u64>) -> Option<u64>
    ensures { result ≡ read.long_of value }
{
    match value {
        Some(value) if value <= 9223372036854775807 => Some(value),
        _ => None,
    }
}

// The value of the digits, where 64 bits hold it.
fn value_of(base: u64, digits: &[u8]) -> Option<u64>
    requires { 0 < base }
    ensures { result ≡ read.up_to 18446744073709551615 (number.value_from base 0 digits.now) }
{
    let mut value = 0;
    for digit in digits {
        value = with_digit(base, value, *digit)?;
    }
    Some(value)
}

fn with_digit(base: u64, value: u64, digit: u8) -> Option<u64>
    ensures { result ≡ read.up_to 18446744073709551615 (value * base + number.digit_value digit) }
{
    value
        .checked_mul(base)?
        .checked_add(u64::from(digit_value(digit)))
}

fn digit_value(b: u8) -> u8
    ensures { result ≡ number.digit_value b }
{
    if b <= b'9' {
        b.saturating_sub(b'0')
    } else if b <= b'F' {
        b - 55
    } else {
        b.saturating_sub(87)
    }
}
