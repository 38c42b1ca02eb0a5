//! How a line is cut: at its first word, or into the source and the wanted text of a case.

/// The first word of a line, and what follows the blank behind it.
pub fn word_of(line: &str) -> (&str, &str) {
    line.split_once(' ').unwrap_or((line, ""))
}

/// A case of a table, `SOURCE => WANTED`, cut at its last ` => `. Either may be empty. None of another line.
pub fn case_of(line: &str) -> Option<(&str, &str)> {
    if let Some(wanted) = line.strip_prefix("=>") {
        return Some(("", wanted.strip_prefix(' ').unwrap_or(wanted)));
    }
    match line.strip_suffix(" =>") {
        Some(source) => Some((source, "")),
        None => line.rsplit_once(" => "),
    }
}
