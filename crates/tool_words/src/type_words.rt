//! Words that are TYPES, a list of well-formed entries, and the path of a file.
ghost use Rattle.std.specs.Prelude.{◌≡◌, ◌==◌, List, ℕ, map, string_bytes};
ghost use Rattle.std.specs.List.{count_by};
ghost use Rattle.std.specs.Option.{option_map};
ghost use Rattle.tool_words.specs.Entries as entries;

use crate::cut::first_piece;
use crate::entry::{entry_of, first_entry};
use crate::paths::is_path;
use aidl_base::is_identifier;

/// The words where they are TYPES and a path.
pub fn types_and_file(words: &[String]) -> Option<(&str, &str)>
    ensures { option_map {U = List ℕ × List ℕ} (λ p. (p.0.now, p.1.now)) result
        ≡ entries.types_and_file (map string_bytes words.now) }
{
    match words {
        [types, file] if are_types(types.as_str()) && is_path(file.as_str()) => Some((
            types.as_str(),
            file.as_str(),
        )),
        _ => None,
    }
}

// Whether a word is one to 255 well-formed entries.
#[tactic(auto, unfolding(crate::specs::Entries::are_types))]
fn are_types(types: &str) -> bool
    ensures { result ≡ entries.are_types types.now }
{
    are_few(types) && are_formed(types)
}

fn are_few(types: &str) -> bool
    ensures { result ≡ entries.are_few types.now }
{
    comma_count(types) < 255
}

fn comma_count(types: &str) -> usize
    ensures { result ≡ count_by (λ b. b == 44) types.now }
{
    types.as_bytes().iter().filter(|b| **b == b',').count()
}

// Whether the name in every entry is identifiers with dots between them.
fn are_formed(types: &str) -> bool
    ensures { result ≡ entries.are_formed types.now }
{
    let mut left = Some(types);
    'entries: while let Some(text) = left {
        let (entry, others) = first_entry(text);
        if !is_dotted(entry_of(entry.as_bytes()).name) {
            return false;
        }
        left = others;
    }
    true
}

fn is_dotted(name: &[u8]) -> bool
    ensures { result ≡ entries.is_dotted name.now }
{
    let mut left = Some(name);
    'parts: while let Some(text) = left {
        let (part, others) = first_piece(text, b'.');
        if !is_identifier(part) {
            return false;
        }
        left = others;
    }
    true
}
