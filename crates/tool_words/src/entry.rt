//! The entries of TYPES: how the list is cut into them, and each into its name, form and flag.
ghost use Rattle.std.specs.Prelude.{◌≡◌, ◌<◌, ◌∷◌, IfSome, bytes_eq, codes, drop, length, take};
ghost use Rattle.std.specs.Option.{option_map};
ghost use Rattle.tool_words.specs.Cut.{pieces_left};
ghost use Rattle.tool_words.specs.Entries.{ends_with, entries_of, entry_of, shaped, without_last};
ghost use Rattle.tool_words.specs.Seen.{entry_seen};

/// What stands around the name of an entry.
#[derive(Clone, Copy, PartialEq, Eq)]
pub enum Form {
    /// `N`
    One,
    /// `N[]`
    Array,
    /// `List<N>`
    List,
}

/// An entry of TYPES: `N`, `N[]` or `List<N>`, with an optional `?` at its end for nullable.
#[derive(Clone, Copy)]
pub struct Entry<'a> {
    pub name: &'a [u8],
    pub form: Form,
    pub nullable: bool,
}

/// The first entry of TYPES, and what stands after its comma.
pub fn first_entry(types: &str) -> (&str, Option<&str>)
    ensures entries { entries_of types.now
        ≡ result.0.now ∷ pieces_left 44 (option_map (λ others. others.now) result.1) }
    ensures shorter { IfSome result.1 (λ others. length others.now < length types.now) }
{
    match types.split_once(',') {
        Some((entry, others)) => (entry, Some(others)),
        None => (types, None),
    }
}

/// The parts of an entry.
pub fn entry_of(text: &[u8]) -> Entry<'_>
    ensures { entry_seen result ≡ entry_of text.now }
{
    if ends_with(text, b"?") {
        shaped(without_last(text, 1), true)
    } else {
        shaped(text, false)
    }
}

fn shaped(text: &[u8], nullable: bool) -> Entry<'_>
    ensures { entry_seen result ≡ shaped text.now nullable }
{
    if ends_with(text, b"[]") {
        return Entry {
            name: without_last(text, 2),
            form: Form::Array,
            nullable,
        };
    }
    if begins_list(text) && ends_with(text, b">") {
        return Entry {
            name: after_five(without_last(text, 1)),
            form: Form::List,
            nullable,
        };
    }
    Entry {
        name: text,
        form: Form::One,
        nullable,
    }
}

fn begins_list(text: &[u8]) -> bool
    ensures { result ≡ bytes_eq (take 5 text.now) (codes "List<") }
{
    text.starts_with(b"List<")
}

fn after_five(text: &[u8]) -> &[u8]
    ensures { result.now ≡ drop 5 text.now }
{
    text.get(5..).unwrap_or(b"")
}

fn ends_with(text: &[u8], end: &[u8]) -> bool
    ensures { result ≡ ends_with text.now end.now }
{
    text.ends_with(end)
}

fn without_last(text: &[u8], count: usize) -> &[u8]
    ensures { result.now ≡ without_last count text.now }
{
    &text[..text.len().saturating_sub(count)]
}
