//! Words that are paths.
ghost use Rattle.std.specs.Prelude.{◌≡◌, List, ℕ, take, codes, bytes_eq, map, string_bytes};
ghost use Rattle.std.specs.Option.{option_map};
ghost use Rattle.tool_words.specs.Paths as path;

/// Whether a word can be a path: it is neither empty nor does it start with `--`.
#[tactic(auto, unfolding(crate::specs::Paths::is_path))]
pub fn is_path(word: &str) -> bool
    ensures { result ≡ path.is_path word.now }
{
    !word.is_empty() && !starts_with_dashes(word.as_bytes())
}

fn starts_with_dashes(word: &[u8]) -> bool
    ensures { result ≡ bytes_eq (take 2 word.now) (codes "--") }
{
    word.starts_with(b"--")
}

/// The words where they are one path.
pub fn one_path(words: &[String]) -> Option<&str>
    ensures { option_map (λ p. p.now) result ≡ path.one_path (map string_bytes words.now) }
{
    match words {
        [only] if is_path(only.as_str()) => Some(only.as_str()),
        _ => None,
    }
}

/// The words where they are two paths.
pub fn two_paths(words: &[String]) -> Option<(&str, &str)>
    ensures { option_map {U = List ℕ × List ℕ} (λ p. (p.0.now, p.1.now)) result
        ≡ path.two_paths (map string_bytes words.now) }
{
    match words {
        [first, second] if is_path(first.as_str()) && is_path(second.as_str()) => Some((
            first.as_str(),
            second.as_str(),
        )),
        _ => None,
    }
}

/// The words where they are three paths.
pub fn three_paths(words: &[String]) -> Option<(&str, &str, &str)>
    ensures { option_map {U = List ℕ × List ℕ × List ℕ} (λ p. (p.0.now, p.1.now, p.2.now)) result
        ≡ path.three_paths (map string_bytes words.now) }
{
    match words {
        [first, second, third] if are_paths(first.as_str(), second.as_str(), third.as_str()) =>
            Some((first.as_str(), second.as_str(), third.as_str())),
        _ => None,
    }
}

fn are_paths(first: &str, second: &str, third: &str) -> bool
    ensures { result ≡ path.are_paths first.now second.now third.now }
{
    is_path(first) && is_path(second) && is_path(third)
}
