//! The table's rows for constant expressions, initializers and the ids of methods.
ghost use Rattle.std.specs.Prelude.{◌≡◌};
ghost use Rattle.parse_places.specs.steps.Seen.{seen};
ghost use Rattle.parse_places.specs.steps.Expressions as rows;

use crate::expected::Expected::{self, Many, MaybeTrailing, Once, Token};
use crate::expected::Part;
use crate::terminal::Terminal;

// unary
pub fn operand_row(terminal: Terminal) -> Option<&'static [Expected]>
    ensures { seen result ≡ rows.operand_row terminal }
{
    match terminal {
        Terminal::Name => Some(&[Many(Part::DotName)]),
        Terminal::Number | Terminal::Literal => Some(&[]),
        Terminal::OpenParen => Some(&[Once(Part::Expression), Token(Terminal::CloseParen)]),
        Terminal::Sign | Terminal::PlusOrMinus => Some(&[Once(Part::Operand)]),
        _ => None,
    }
}

// an operator, and the operand behind it
pub fn operation_row(terminal: Terminal) -> Option<&'static [Expected]>
    ensures { seen result ≡ rows.operation_row terminal }
{
    match terminal {
        Terminal::Less | Terminal::Greater | Terminal::PlusOrMinus | Terminal::Operator => {
            Some(&[Once(Part::Operand)])
        }
        _ => None,
    }
}

// expr: an operand and the operations behind it
pub fn expression_row(terminal: Terminal) -> Option<&'static [Expected]>
    ensures { seen result ≡ rows.expression_row terminal }
{
    match terminal {
        Terminal::Name => Some(&[Many(Part::DotName), Many(Part::Operation)]),
        Terminal::Number | Terminal::Literal => Some(&[Many(Part::Operation)]),
        Terminal::OpenParen => Some(&[
            Once(Part::Expression),
            Token(Terminal::CloseParen),
            Many(Part::Operation),
        ]),
        Terminal::Sign | Terminal::PlusOrMinus => {
            Some(&[Once(Part::Operand), Many(Part::Operation)])
        }
        _ => None,
    }
}

// init = expr | "{" [expr {"," expr} [","]] "}"
pub fn initializer_row(terminal: Terminal) -> Option<&'static [Expected]>
    ensures { seen result ≡ rows.initializer_row terminal }
{
    match terminal {
        Terminal::OpenBrace => Some(&[
            MaybeTrailing(Part::Expression),
            Token(Terminal::CloseBrace),
        ]),
        _ => expression_row(terminal),
    }
}

// "=" init
pub fn initial_row(terminal: Terminal) -> Option<&'static [Expected]>
    ensures { seen result ≡ rows.initial_row terminal }
{
    match terminal {
        Terminal::Equal => Some(&[Once(Part::Initializer)]),
        _ => None,
    }
}

// "=" expr
pub fn value_row(terminal: Terminal) -> Option<&'static [Expected]>
    ensures { seen result ≡ rows.value_row terminal }
{
    match terminal {
        Terminal::Equal => Some(&[Once(Part::Expression)]),
        _ => None,
    }
}

// "=" number
pub fn id_row(terminal: Terminal) -> Option<&'static [Expected]>
    ensures { seen result ≡ rows.id_row terminal }
{
    match terminal {
        Terminal::Equal => Some(&[Token(Terminal::Number)]),
        _ => None,
    }
}
