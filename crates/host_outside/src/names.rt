//! The names that the caller gave, and what stands below them.
ghost use Rattle.std.specs.Prelude.{◌≤◌, length};

/// Whether a path is one of the names.
pub fn is_named(names: &[String], path: &str) -> bool {
    names.iter().any(|name| name.as_str() == path)
}

/// How many bytes of a path the shortest name has of those that are folders above it. Where there is none, 0.
pub fn root_length(names: &[String], path: &str) -> usize
    ensures { result ≤ length path.now }
{
    let mut least = path.len();
    for name in names {
        if name.len() < least && is_within(path, name.as_str()) {
            least = name.len();
        }
    }
    if least < path.len() { least } else { 0 }
}

/// Whether a path is a folder or stands below it.
pub fn is_within(path: &str, folder: &str) -> bool {
    match path.strip_prefix(folder) {
        Some(rest) => rest.is_empty() || rest.starts_with('/'),
        None => false,
    }
}
