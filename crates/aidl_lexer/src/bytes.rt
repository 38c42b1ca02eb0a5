//! Classes of bytes, and how many bytes of a class stand at the front.
ghost use Rattle.std.specs.Prelude.{◌≡◌, ◌≤◌, ◌==◌, ◌+◌, length, drop};
ghost use Rattle.std.specs.Char.{is_ascii_digit, is_ascii_hexdigit};
ghost use Rattle.std.specs.List.{prefix_len};
ghost use Rattle.aidl_syntax.specs.Bytes as class;
ghost use Rattle.aidl_base.specs.Blanks.{is_blank};
ghost use Rattle.aidl_base.specs.Identifiers as identifiers;

// A space, a tab, a carriage return or a newline.
pub fn is_blank(b: u8) -> bool
    ensures { result ≡ is_blank b }
{
    b == b' ' || b == b'\t' || b == b'\r' || b == b'\n'
}

// A printable character other than the quote and `\`.
pub fn is_inside(quote: u8, b: u8) -> bool
    ensures { result ≡ class.is_inside quote b }
{
    32 <= b && b <= 126 && b != quote && b != b'\\'
}

// Whether a first byte is there and is the wanted one.
pub fn begins_with(bytes: &[u8], wanted: u8) -> bool
    ensures { result ≡ identifiers.begins (λ b. b == wanted) bytes.now }
{
    match bytes {
        [b, ..] => *b == wanted,
        [] => false,
    }
}

// 1 at each letter, `_` and digit, by its code: a look-up takes half of what the tests take.
#[rattlefmt::skip]
static WORD_BYTES: [u8; 256] = [
    0, 0, 0, 0, 0, 0, 0, 0, 0, 0, 0, 0, 0, 0, 0, 0,
    0, 0, 0, 0, 0, 0, 0, 0, 0, 0, 0, 0, 0, 0, 0, 0,
    0, 0, 0, 0, 0, 0, 0, 0, 0, 0, 0, 0, 0, 0, 0, 0,
    1, 1, 1, 1, 1, 1, 1, 1, 1, 1, 0, 0, 0, 0, 0, 0,
    0, 1, 1, 1, 1, 1, 1, 1, 1, 1, 1, 1, 1, 1, 1, 1,
    1, 1, 1, 1, 1, 1, 1, 1, 1, 1, 1, 0, 0, 0, 0, 1,
    0, 1, 1, 1, 1, 1, 1, 1, 1, 1, 1, 1, 1, 1, 1, 1,
    1, 1, 1, 1, 1, 1, 1, 1, 1, 1, 1, 0, 0, 0, 0, 0,
    0, 0, 0, 0, 0, 0, 0, 0, 0, 0, 0, 0, 0, 0, 0, 0,
    0, 0, 0, 0, 0, 0, 0, 0, 0, 0, 0, 0, 0, 0, 0, 0,
    0, 0, 0, 0, 0, 0, 0, 0, 0, 0, 0, 0, 0, 0, 0, 0,
    0, 0, 0, 0, 0, 0, 0, 0, 0, 0, 0, 0, 0, 0, 0, 0,
    0, 0, 0, 0, 0, 0, 0, 0, 0, 0, 0, 0, 0, 0, 0, 0,
    0, 0, 0, 0, 0, 0, 0, 0, 0, 0, 0, 0, 0, 0, 0, 0,
    0, 0, 0, 0, 0, 0, 0, 0, 0, 0, 0, 0, 0, 0, 0, 0,
    0, 0, 0, 0, 0, 0, 0, 0, 0, 0, 0, 0, 0, 0, 0, 0,
];

// A letter, `_` or a digit.
fn goes_on(b: u8) -> bool
    ensures { result ≡ identifiers.is_word_byte b }
{
    WORD_BYTES[usize::from(b)] == 1
}

// The number of letters, digits and `_` at the front.
pub fn word_len(bytes: &[u8]) -> usize
    ensures value { result ≡ prefix_len identifiers.is_word_byte bytes.now }
    ensures within { result ≤ length bytes.now }
{
    bytes.iter().take_while(|b| goes_on(**b)).count()
}

// The number of decimal digits at the front.
pub fn digits_len(bytes: &[u8]) -> usize
    ensures value { result ≡ prefix_len is_ascii_digit bytes.now }
    ensures within { result ≤ length bytes.now }
{
    bytes.iter().take_while(|b| b.is_ascii_digit()).count()
}

// The number of hexadecimal digits at the front.
pub fn hex_digits_len(bytes: &[u8]) -> usize
    ensures value { result ≡ prefix_len is_ascii_hexdigit bytes.now }
    ensures within { result ≤ length bytes.now }
{
    bytes.iter().take_while(|b| b.is_ascii_hexdigit()).count()
}

// The number of bytes at the front that may stand in a string.
pub fn inside_len(bytes: &[u8]) -> usize
    ensures value { result ≡ prefix_len (class.is_inside 34) bytes.now }
    ensures within { result ≤ length bytes.now }
{
    bytes.iter().take_while(|b| is_inside(b'"', **b)).count()
}

// The number of bytes before the first newline.
pub fn line_len(bytes: &[u8]) -> usize
    ensures value { result ≡ prefix_len class.is_no_newline bytes.now }
    ensures within { result ≤ length bytes.now }
{
    bytes.iter().take_while(|b| **b != b'\n').count()
}

// What is left behind some bytes.
pub fn after(bytes: &[u8], len: usize) -> &[u8]
    requires { len ≤ length bytes.now }
    ensures value { result.now ≡ drop len bytes.now }
    ensures left { len + length result.now ≡ length bytes.now }
{
    &bytes[len..]
}
