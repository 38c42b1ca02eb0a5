//! The reserved words: how they are written, and which one some bytes are.
ghost use Rattle.std.specs.Prelude.{◌≡◌};
ghost use Rattle.aidl_base.specs.Reserved.{word_of, word_in, reserved_of};
ghost use Rattle.aidl_base.specs.steps.Keys.{of_key, those_of};

/// The words that are no identifiers (AOSP, "AIDL language", as far as the profile goes).
#[derive(Clone, Copy, Debug, PartialEq, Eq)]
pub enum Reserved {
    Package,
    Import,
    Interface,
    Parcelable,
    Union,
    Enum,
    Const,
    Oneway,
    In,
    Out,
    InOut,
    True,
    False,
    Void,
}

impl Reserved {
    /// The word as it is written.
    pub fn word(self) -> &'static str
        ensures { result.now ≡ word_of self }
    {
        match self {
            Reserved::Package => "package",
            Reserved::Import => "import",
            Reserved::Interface => "interface",
            Reserved::Parcelable => "parcelable",
            Reserved::Union => "union",
            Reserved::Enum => "enum",
            Reserved::Const => "const",
            Reserved::Oneway => "oneway",
            Reserved::In => "in",
            Reserved::Out => "out",
            Reserved::InOut => "inout",
            Reserved::True => "true",
            Reserved::False => "false",
            Reserved::Void => "void",
        }
    }
}

/// The reserved word that these bytes are. The length and the first byte leave one word at most to compare with.
#[tactic(auto, using(crate::proofs::Keys::found, crate::proofs::Keys::nothing))]
pub fn reserved_of(text: &[u8]) -> Option<Reserved>
    ensures { result ≡ reserved_of text.now }
{
    match text {
        [first, ..] => compared(by_key(text.len(), *first), text),
        [] => None,
    }
}

// The word, where the text is that word.
fn compared(word: Option<Reserved>, text: &[u8]) -> Option<Reserved>
    ensures { result ≡ word_in (those_of word) text.now }
{
    match word {
        Some(word) if text == word.word().as_bytes() => Some(word),
        _ => None,
    }
}

// The one reserved word of this length that begins with this byte.
fn by_key(len: usize, first: u8) -> Option<Reserved>
    ensures { those_of result ≡ of_key len first }
{
    match (len, first) {
        (7, b'p') => Some(Reserved::Package),
        (6, b'i') => Some(Reserved::Import),
        (9, b'i') => Some(Reserved::Interface),
        (10, b'p') => Some(Reserved::Parcelable),
        (5, b'u') => Some(Reserved::Union),
        (4, b'e') => Some(Reserved::Enum),
        (5, b'c') => Some(Reserved::Const),
        (6, b'o') => Some(Reserved::Oneway),
        (2, b'i') => Some(Reserved::In),
        (3, b'o') => Some(Reserved::Out),
        (5, b'i') => Some(Reserved::InOut),
        (4, b't') => Some(Reserved::True),
        (5, b'f') => Some(Reserved::False),
        (4, b'v') => Some(Reserved::Void),
        _ => None,
    }
}
