//! The table's rows for methods, their arguments and the members of interfaces.
ghost use Rattle.std.specs.Prelude.{◌≡◌};
ghost use Rattle.parse_places.specs.steps.Seen.{seen};
ghost use Rattle.parse_places.specs.steps.Methods as rows;

use crate::declarations::constant_row;
use crate::expected::Expected::{self, Many, Maybe, MaybeListed, Once, Token};
use crate::expected::Part;
use crate::terminal::Terminal;

// ["in" | "out" | "inout"] annots type ident
pub fn argument_rest_row(terminal: Terminal) -> Option<&'static [Expected]>
    ensures { seen result ≡ rows.argument_rest_row terminal }
{
    match terminal {
        Terminal::Way => Some(&[
            Many(Part::Annotation),
            Once(Part::Type),
            Token(Terminal::Name),
        ]),
        Terminal::Name => Some(&[
            Many(Part::DotName),
            Maybe(Part::Element),
            Maybe(Part::Array),
            Token(Terminal::Name),
        ]),
        _ => None,
    }
}

// arg = annots ["in" | "out" | "inout"] annots type ident
pub fn argument_row(terminal: Terminal) -> Option<&'static [Expected]>
    ensures { seen result ≡ rows.argument_row terminal }
{
    match terminal {
        Terminal::At => Some(&[
            Token(Terminal::Name),
            Maybe(Part::Parameters),
            Many(Part::Annotation),
            Once(Part::ArgumentRest),
        ]),
        _ => argument_rest_row(terminal),
    }
}

// (type | "void") ident "(" [arg {"," arg}] ")" ["=" number] ";"
pub fn method_row(terminal: Terminal) -> Option<&'static [Expected]>
    ensures { seen result ≡ rows.method_row terminal }
{
    match terminal {
        Terminal::Void => Some(&[
            Token(Terminal::Name),
            Token(Terminal::OpenParen),
            MaybeListed(Part::Argument),
            Token(Terminal::CloseParen),
            Maybe(Part::Id),
            Token(Terminal::Semicolon),
        ]),
        Terminal::Name => Some(&[
            Many(Part::DotName),
            Maybe(Part::Element),
            Maybe(Part::Array),
            Token(Terminal::Name),
            Token(Terminal::OpenParen),
            MaybeListed(Part::Argument),
            Token(Terminal::CloseParen),
            Maybe(Part::Id),
            Token(Terminal::Semicolon),
        ]),
        _ => None,
    }
}

// what follows "oneway": an interface or a method
pub fn oneway_rest_row(terminal: Terminal) -> Option<&'static [Expected]>
    ensures { seen result ≡ rows.oneway_rest_row terminal }
{
    match terminal {
        Terminal::Interface => Some(&[
            Token(Terminal::Name),
            Token(Terminal::OpenBrace),
            Many(Part::InterfaceMember),
            Token(Terminal::CloseBrace),
        ]),
        _ => method_row(terminal),
    }
}

// method | constant | decl, behind annotations
pub fn interface_member_rest_row(terminal: Terminal) -> Option<&'static [Expected]>
    ensures { seen result ≡ rows.interface_member_rest_row terminal }
{
    match terminal {
        Terminal::Oneway => Some(&[Once(Part::OnewayRest)]),
        Terminal::Void | Terminal::Name => method_row(terminal),
        _ => constant_row(terminal),
    }
}

// imember = method | constant | decl
pub fn interface_member_row(terminal: Terminal) -> Option<&'static [Expected]>
    ensures { seen result ≡ rows.interface_member_row terminal }
{
    match terminal {
        Terminal::At => Some(&[
            Token(Terminal::Name),
            Maybe(Part::Parameters),
            Many(Part::Annotation),
            Once(Part::InterfaceMemberRest),
        ]),
        _ => interface_member_rest_row(terminal),
    }
}
