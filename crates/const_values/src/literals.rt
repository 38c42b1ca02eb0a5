//! Literals as operands, with the widths of numbers.
ghost use Rattle.std.specs.Prelude.{◌≡◌, ◌<◌, ◌^◌, IfSome};
ghost use Rattle.std.specs.Option.{option_map};
ghost use Rattle.const_values.specs.Literals.{literal_of, narrow_limit, number_of, of_bits};
ghost use Rattle.const_values.specs.Operands.{IsWithin};
ghost use Rattle.const_values.specs.Seen.{seen};
ghost use Rattle.const_values.specs.declared.width.Width.TheVariants.{Narrow, Wide};

use crate::operand::{Operand, Words};
use crate::width::Width;
use aidl_syntax::{Reserved, TokenKind};

/// What a token is as an operand, and None where it is no literal (own). A string is borrowed.
pub fn literal(token: &TokenKind) -> Option<Operand<'_>>
    ensures value { option_map seen result ≡ literal_of token.now }
    ensures within { IfSome result (λ value. IsWithin (seen value)) }
{
    match token {
        TokenKind::Number {
            bits,
            hexadecimal,
            long,
        } => Some(number(*hexadecimal, *long, *bits)),
        TokenKind::Character(code) => Some(Operand::Character(*code)),
        TokenKind::Str(text) => Some(Operand::Text(Words::Borrowed(text))),
        TokenKind::Word(Reserved::True) => Some(Operand::Truth(true)),
        TokenKind::Word(Reserved::False) => Some(Operand::Truth(false)),
        _ => None,
    }
}

fn number<'a>(hexadecimal: bool, long: bool, bits: u64) -> Operand<'a>
    ensures value { seen result ≡ number_of hexadecimal long bits }
    ensures within { IsWithin (seen result) }
{
    if long {
        wide(bits)
    } else if bits <= narrow_limit(hexadecimal) {
        narrow(bits as u32)
    } else {
        wide(bits)
    }
}

// The greatest literal of 32 bits.
fn narrow_limit(hexadecimal: bool) -> u64
    ensures value { result ≡ narrow_limit hexadecimal }
    ensures bound { result < 2 ^ 32 }
{
    if hexadecimal { 4294967295 } else { 2147483647 }
}

// The number of 32 bits.
fn narrow<'a>(bits: u32) -> Operand<'a>
    ensures value { seen result ≡ of_bits Narrow bits }
    ensures within { IsWithin (seen result) }
{
    Operand::Number {
        width: Width::Narrow,
        value: i64::from(bits.cast_signed()),
    }
}

// The number of 64 bits.
fn wide<'a>(bits: u64) -> Operand<'a>
    ensures value { seen result ≡ of_bits Wide bits }
    ensures within { IsWithin (seen result) }
{
    Operand::Number {
        width: Width::Wide,
        value: bits.cast_signed(),
    }
}
