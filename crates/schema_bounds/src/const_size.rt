//! The size of a constant, by either measure.
ghost use Rattle.std.specs.Prelude.{◌≡◌, ◌-◌, ◌<◌, ◌^◌, map, min};
ghost use Rattle.schema_bounds.specs.steps.Measures as measures;

use crate::measure::Measure;
use aidl_base::{Const, Text};

/// The size of a constant, counted up to `top`: at most so many levels are gone down.
#[cycle(const_size)]
pub fn const_size(measure: Measure, top: usize, constant: &Const) -> usize
    ensures { result ≡ min top (measures.const_size measure constant.now) }
{
    if top == 0 {
        return 0;
    }
    match constant {
        Const::Truth(_) | Const::Number(_) => measure.leaf().min(top),
        Const::Text(text) => text_size(measure, top, text),
        Const::Members(members) => members_size(measure, top - 1, members.as_slice()) + 1,
    }
}

// The size of constants beside each other.
#[cycle(const_size)]
fn members_size(measure: Measure, top: usize, members: &[Const]) -> usize
    requires { top < 2 ^ 64 - 1 }
    ensures { result ≡ min top
        (measures.total measure (map (measures.const_size measure) members.now)) }
{
    let mut size = 0;
    for member in members {
        size = measure.beside(top, size, const_size(measure, top, member));
    }
    size
}

// The size of a text.
fn text_size(measure: Measure, top: usize, text: &Text) -> usize
    ensures { result ≡ min top (measures.text_size measure text.now) }
{
    match measure {
        Measure::Depth => 0,
        Measure::Nodes => text.char_count().saturating_add(1).min(top),
    }
}
