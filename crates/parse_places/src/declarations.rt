//! The table's rows for declarations, enumerators and the members of parcelables and unions.
ghost use Rattle.std.specs.Prelude.{◌≡◌};
ghost use Rattle.parse_places.specs.steps.Seen.{seen};
ghost use Rattle.parse_places.specs.steps.Declarations as rows;

use crate::expected::Expected::{self, CommasTrailing, Many, Maybe, Once, Token};
use crate::expected::Part;
use crate::terminal::Terminal;

// enumerator = ident ["=" expr]
pub fn enumerator_row(terminal: Terminal) -> Option<&'static [Expected]>
    ensures { seen result ≡ rows.enumerator_row terminal }
{
    match terminal {
        Terminal::Name => Some(&[Maybe(Part::Value)]),
        _ => None,
    }
}

// parcelable | union | enum | interface
pub fn body_row(terminal: Terminal) -> Option<&'static [Expected]>
    ensures { seen result ≡ rows.body_row terminal }
{
    match terminal {
        Terminal::Parcelable | Terminal::Union => Some(&[
            Token(Terminal::Name),
            Token(Terminal::OpenBrace),
            Many(Part::Member),
            Token(Terminal::CloseBrace),
        ]),
        Terminal::Enum => Some(&[
            Token(Terminal::Name),
            Token(Terminal::OpenBrace),
            Once(Part::Enumerator),
            CommasTrailing(Part::Enumerator),
            Token(Terminal::CloseBrace),
        ]),
        Terminal::Interface => Some(&[
            Token(Terminal::Name),
            Token(Terminal::OpenBrace),
            Many(Part::InterfaceMember),
            Token(Terminal::CloseBrace),
        ]),
        Terminal::Oneway => Some(&[
            Token(Terminal::Interface),
            Token(Terminal::Name),
            Token(Terminal::OpenBrace),
            Many(Part::InterfaceMember),
            Token(Terminal::CloseBrace),
        ]),
        _ => None,
    }
}

// constant | decl, behind annotations
pub fn constant_row(terminal: Terminal) -> Option<&'static [Expected]>
    ensures { seen result ≡ rows.constant_row terminal }
{
    match terminal {
        Terminal::Const => Some(&[
            Once(Part::Type),
            Token(Terminal::Name),
            Token(Terminal::Equal),
            Once(Part::Expression),
            Token(Terminal::Semicolon),
        ]),
        _ => body_row(terminal),
    }
}

// field | constant | decl, behind annotations
pub fn member_rest_row(terminal: Terminal) -> Option<&'static [Expected]>
    ensures { seen result ≡ rows.member_rest_row terminal }
{
    match terminal {
        Terminal::Name => Some(&[
            Many(Part::DotName),
            Maybe(Part::Element),
            Maybe(Part::Array),
            Token(Terminal::Name),
            Maybe(Part::Initial),
            Token(Terminal::Semicolon),
        ]),
        _ => constant_row(terminal),
    }
}

// member = field | constant | decl
pub fn member_row(terminal: Terminal) -> Option<&'static [Expected]>
    ensures { seen result ≡ rows.member_row terminal }
{
    match terminal {
        Terminal::At => Some(&[
            Token(Terminal::Name),
            Maybe(Part::Parameters),
            Many(Part::Annotation),
            Once(Part::MemberRest),
        ]),
        _ => member_rest_row(terminal),
    }
}
