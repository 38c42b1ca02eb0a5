//! The table's rows for packages, imports, dotted names and types.
ghost use Rattle.std.specs.Prelude.{◌≡◌};
ghost use Rattle.parse_places.specs.steps.Seen.{seen};
ghost use Rattle.parse_places.specs.steps.Names as rows;

use crate::expected::Expected::{self, Many, Maybe, Token};
use crate::expected::Part;
use crate::terminal::Terminal;

// "package" dotted ";"
pub fn package_row(terminal: Terminal) -> Option<&'static [Expected]>
    ensures { seen result ≡ rows.package_row terminal }
{
    match terminal {
        Terminal::Package => Some(&[
            Token(Terminal::Name),
            Many(Part::DotName),
            Token(Terminal::Semicolon),
        ]),
        _ => None,
    }
}

// "import" dotted ";"
pub fn import_row(terminal: Terminal) -> Option<&'static [Expected]>
    ensures { seen result ≡ rows.import_row terminal }
{
    match terminal {
        Terminal::Import => Some(&[
            Token(Terminal::Name),
            Many(Part::DotName),
            Token(Terminal::Semicolon),
        ]),
        _ => None,
    }
}

// "." ident
pub fn dot_name_row(terminal: Terminal) -> Option<&'static [Expected]>
    ensures { seen result ≡ rows.dot_name_row terminal }
{
    match terminal {
        Terminal::Dot => Some(&[Token(Terminal::Name)]),
        _ => None,
    }
}

// dotted ["<" dotted ">"] ["[" "]"]
pub fn type_row(terminal: Terminal) -> Option<&'static [Expected]>
    ensures { seen result ≡ rows.type_row terminal }
{
    match terminal {
        Terminal::Name => Some(&[
            Many(Part::DotName),
            Maybe(Part::Element),
            Maybe(Part::Array),
        ]),
        _ => None,
    }
}

// "<" dotted ">"
pub fn element_row(terminal: Terminal) -> Option<&'static [Expected]>
    ensures { seen result ≡ rows.element_row terminal }
{
    match terminal {
        Terminal::Less => Some(&[
            Token(Terminal::Name),
            Many(Part::DotName),
            Token(Terminal::Greater),
        ]),
        _ => None,
    }
}

// "[" "]"
pub fn array_row(terminal: Terminal) -> Option<&'static [Expected]>
    ensures { seen result ≡ rows.array_row terminal }
{
    match terminal {
        Terminal::OpenBracket => Some(&[Token(Terminal::CloseBracket)]),
        _ => None,
    }
}
