//! The version to which a path below an API belongs.
ghost use Rattle.std.specs.Prelude.{◌≡◌, ◌<◌, min, true, IfSome};
ghost use Rattle.std.specs.Char.{is_ascii_digit};
ghost use Rattle.std.specs.List.{list_all};
ghost use Rattle.std.specs.Option.{option_map};
ghost use Rattle.std.specs.Str.Parse.{digits_value};
ghost use Rattle.api_versions.specs.Places as meant;
ghost use Rattle.api_versions.specs.Seen.{place_seen};

/// Where a file below an API stands: the number of its version, and its path relative to that version's folder. Numbers
/// above 9,999 are 10,000 here.
#[derive(Clone, Copy)]
pub struct Place<'a> {
    pub number: u32,
    pub path: &'a str,
}

/// The place of a path below an API; none where it belongs to no version.
pub fn place_of(path: &str) -> Option<Place<'_>>
    ensures place { option_map place_seen result
        ≡ option_map meant.bounded (meant.place_of path.now) }
    ensures positive { IfSome result (λ p. 0 < p.number) }
{
    let (name, path) = path.split_once('/')?;
    match number_of(name) {
        Some(number) => Some(Place { number, path }),
        None => None,
    }
}

// The number of a version with this name, at most 10,000.
fn number_of(name: &str) -> Option<u32>
    ensures number { result ≡ option_map (λ n. min 10000 n) (meant.number_of name.now) }
    ensures positive { IfSome result (λ n. 0 < n) }
{
    if !is_number(name.as_bytes()) {
        return None;
    }
    Some(value_of(name))
}

// Whether it is a decimal number of 1 or more without a leading zero.
fn is_number(name: &[u8]) -> bool
    ensures { result ≡ meant.is_number name.now }
{
    match name {
        [] => false,
        [first, ..] => *first != b'0' && are_digits(name),
    }
}

fn are_digits(name: &[u8]) -> bool
    ensures { result ≡ list_all is_ascii_digit name.now }
{
    name.iter().all(|b| b.is_ascii_digit())
}

// The value of such a number, at most 10,000.
fn value_of(name: &str) -> u32
    requires { meant.is_number name.now ≡ true }
    ensures value { result ≡ min 10000 (digits_value 10 name.now) }
    ensures positive { 0 < result }
{
    match name.parse::<u32>() {
        Ok(number) => number.min(10_000),
        Err(_) => 10_000,
    }
}
