//! Paths of values, as JSON pointers, and what goes with a path on the way down.
ghost use Rattle.std.specs.Prelude.{◌≡◌, ◌++◌, IfOk, IfSome, OnOk, IsAscii, codes, decimal, string_bytes};
ghost use Rattle.std.specs.Str.{chars};
ghost use Rattle.parcel_explain.specs.Items.{below};
ghost use Rattle.parcel_explain.specs.steps.Stems.{IsStem};

use aidl_base::{OutOfMemory, Text};
use aidl_schema::Schema;
use arrayvec::ArrayString;
use itoa::Buffer;
use std::alloc::Global;

// The most digits of a position, since a count is below 2^31.
const MOST_DIGITS: usize = 10;

/// Where a value stands: the schema that its type is of, its path, and how many composite levels are left for it; and what gives memory.
#[derive(Clone, Copy)]
pub struct Spot<'a> {
    pub alloc: Global,
    pub schema: &'a Schema,
    pub path: &'a Text,
    pub levels: usize,
}

/// The path of the element at a 0-based position below a path; or below the empty path that of the parcel's value at it. It answers only
/// want of memory.
pub fn below_index(alloc: Global, path: &Text, index: usize) -> Result<Text, OutOfMemory>
    ensures { IfOk result (λ made. made ≡ below path.now (decimal index)) }
{
    let mut digits = Buffer::new();
    below_name(alloc, path, digits.format(index))
}

/// The path of the field of this name below a path. It answers only want of memory, and takes none where the path made has at most 16 bytes.
pub fn below_name(alloc: Global, path: &Text, name: &str) -> Result<Text, OutOfMemory>
    ensures { IfOk result (λ made. made ≡ below path.now (chars name.now)) }
{
    let path = path.as_str();
    match short_below(path, name) {
        Some(short) => Text::from_str(alloc, short.as_str()),
        None => long_below(alloc, path, name),
    }
}

// The same in place, where it has at most 16 bytes.
fn short_below(path: &str, name: &str) -> Option<ArrayString<16>>
    ensures { IfSome result (λ short. short.bytes ≡ path.now ++ codes "/" ++ name.now) }
{
    match ArrayString::from(path) {
        Ok(short) => short_onto(short, name),
        Err(_) => None,
    }
}

// Adds a slash and a name behind a path.
fn short_onto(path: ArrayString<16>, name: &str) -> Option<ArrayString<16>>
    ensures { IfSome result (λ short. short.bytes ≡ path.bytes ++ codes "/" ++ name.now) }
{
    let mut short = path;
    match short.try_push_str("/") {
        Err(_) => None,
        Ok(()) => match short.try_push_str(name) {
            Err(_) => None,
            Ok(()) => Some(short),
        },
    }
}

fn long_below(alloc: Global, path: &str, name: &str) -> Result<Text, OutOfMemory>
    ensures { IfOk result (λ made. made ≡ chars (path.now ++ codes "/" ++ name.now)) }
{
    let mut text = String::with_capacity(alloc, path.len() + 1 + name.len())?;
    text.push_str(path)?;
    text.push_str("/")?;
    text.push_str(name)?;
    Ok(Text::from_string(text))
}

/// What the paths of the elements of a value begin with: its path and a slash, with room for a position. It answers only want of memory.
pub fn stem_of(alloc: Global, path: &Text) -> Result<String, OutOfMemory>
    ensures { IfOk result (λ stem. IsStem path.now (string_bytes stem)) }
{
    let path = path.as_str();
    let mut stem = String::with_capacity(alloc, path.len() + 1 + MOST_DIGITS)?;
    stem.push_str(path)?;
    stem.push_str("/")?;
    Ok(stem)
}

/// The path of the element at a 0-based position, written behind what the paths begin with, which stays. It answers only want of memory.
pub fn element_path(
    alloc: Global,
    stem: &mut String,
    digits: &mut Buffer,
    index: usize,
) -> Result<Text, OutOfMemory>
    ensures made { IfOk result (λ made. made ≡ chars (string_bytes stem.old) ++ decimal index) }
    ensures same { OnOk result (string_bytes stem.new ≡ string_bytes stem.old) }
{
    path_onto(alloc, stem, digits.format(index))
}

fn path_onto(alloc: Global, stem: &mut String, step: &str) -> Result<Text, OutOfMemory>
    requires { IsAscii step.now }
    ensures made { IfOk result (λ made. made ≡ chars (string_bytes stem.old) ++ step.now) }
    ensures same { OnOk result (string_bytes stem.new ≡ string_bytes stem.old) }
{
    let length = stem.len();
    stem.push_str(step)?;
    let made = Text::from_str(alloc, stem.as_str())?;
    stem.truncate(length);
    Ok(made)
}
