//! The table's rows for annotations and their parameters.
ghost use Rattle.std.specs.Prelude.{◌≡◌};
ghost use Rattle.parse_places.specs.steps.Seen.{seen};
ghost use Rattle.parse_places.specs.steps.Annotations as rows;

use crate::expected::Expected::{self, Many, Maybe, MaybeListed, Once, Token};
use crate::expected::Part;
use crate::expressions::initializer_row;
use crate::terminal::Terminal;

// "@" ident ["(" [param {"," param}] ")"]
pub fn annotation_row(terminal: Terminal) -> Option<&'static [Expected]>
    ensures { seen result ≡ rows.annotation_row terminal }
{
    match terminal {
        Terminal::At => Some(&[Token(Terminal::Name), Maybe(Part::Parameters)]),
        _ => None,
    }
}

// "(" [param {"," param}] ")"
pub fn parameters_row(terminal: Terminal) -> Option<&'static [Expected]>
    ensures { seen result ≡ rows.parameters_row terminal }
{
    match terminal {
        Terminal::OpenParen => Some(&[MaybeListed(Part::Parameter), Token(Terminal::CloseParen)]),
        _ => None,
    }
}

// param = [ident "="] init
pub fn parameter_row(terminal: Terminal) -> Option<&'static [Expected]>
    ensures { seen result ≡ rows.parameter_row terminal }
{
    match terminal {
        Terminal::Name => Some(&[Maybe(Part::ParameterRest)]),
        _ => initializer_row(terminal),
    }
}

// what follows the identifier that begins a parameter: "=" init, or the rest of an expression
pub fn parameter_rest_row(terminal: Terminal) -> Option<&'static [Expected]>
    ensures { seen result ≡ rows.parameter_rest_row terminal }
{
    match terminal {
        Terminal::Equal => Some(&[Once(Part::Initializer)]),
        Terminal::Dot => Some(&[
            Token(Terminal::Name),
            Many(Part::DotName),
            Many(Part::Operation),
        ]),
        Terminal::Less | Terminal::Greater | Terminal::PlusOrMinus | Terminal::Operator => {
            Some(&[Once(Part::Operand), Many(Part::Operation)])
        }
        _ => None,
    }
}
