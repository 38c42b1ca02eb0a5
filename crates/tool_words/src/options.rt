//! The options that may stand before the other words: flags, and `--tree` with its path.
ghost use Rattle.std.specs.Prelude.{◌≡◌, map, string_bytes};
ghost use Rattle.std.specs.Option.{option_map};
ghost use Rattle.tool_words.specs.Options as option;

use crate::paths::is_path;

/// Whether a flag stands first.
pub fn has_flag(words: &[String], flag: &str) -> bool
    ensures { result ≡ option.has_flag flag.now (map string_bytes words.now) }
{
    match words {
        [word, ..] => word.as_str() == flag,
        [] => false,
    }
}

/// The words after a flag, where it stands first, or else all.
pub fn after_flag<'a>(words: &'a [String], flag: &str) -> &'a [String]
    ensures { map string_bytes result.now
        ≡ option.after_flag flag.now (map string_bytes words.now) }
{
    match words {
        [word, rest @ ..] if word.as_str() == flag => rest,
        _ => words,
    }
}

/// TREE, where `--tree TREE` stands first.
pub fn tree_of(words: &[String]) -> Option<&str>
    ensures { option_map (λ tree. tree.now) result ≡ option.tree_of (map string_bytes words.now) }
{
    match words {
        [word, tree, ..] if is_tree(word.as_str(), tree.as_str()) => Some(tree.as_str()),
        _ => None,
    }
}

/// The words after `--tree TREE`, where it stands first, or else all.
pub fn after_tree(words: &[String]) -> &[String]
    ensures { map string_bytes result.now ≡ option.after_tree (map string_bytes words.now) }
{
    match words {
        [word, tree, rest @ ..] if is_tree(word.as_str(), tree.as_str()) => rest,
        _ => words,
    }
}

fn is_tree(word: &str, tree: &str) -> bool
    ensures { result ≡ option.is_tree word.now tree.now }
{
    word == "--tree" && is_path(tree)
}
