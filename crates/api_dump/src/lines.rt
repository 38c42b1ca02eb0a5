//! The lines of members in the canonical dump: fields, constants, methods and enumerators.
#![tactic(auto, using(crate::proofs::Texts::behind), unfolding(crate::specs::Pieces::spelling))]

ghost use Rattle.std.specs.Prelude.{◌∷◌, []};
ghost use Rattle.growing.specs.Grows.{Grows};
ghost use Rattle.api_dump.specs.Lines as meant;
ghost use Rattle.api_dump.specs.Pieces.{joined, reserved, text_of};
ghost use Rattle.api_dump.specs.Pieces.Piece.{space};

use crate::names::push_name;
use crate::types::{push_base, push_type};
use crate::values::{push_backed, push_initial, push_value};
use aidl_schema::{Arg, Backing, Constant, Decl, Direction, Enumerator, Field, Method};
use growing::GrowingText;

/// Adds the line of a field.
pub fn push_field(decls: &[Decl], field: &Field, text: &mut GrowingText)
    ensures { Grows text.old text.new (text_of (meant.field decls.now field.now)) }
{
    push_type(decls, &field.ty, text);
    push_name(&field.name, text);
    push_initial(decls, &field.ty, &field.initial, text);
    text.push_str(";\n");
}

/// Adds the line of a constant.
pub fn push_constant(decls: &[Decl], constant: &Constant, text: &mut GrowingText)
    ensures { Grows text.old text.new (text_of (meant.constant decls.now constant.now)) }
{
    text.push_str("const ");
    push_base(decls, constant.ty, text);
    push_name(&constant.name, text);
    text.push_str(" = ");
    push_value(decls, constant.ty, &constant.value, text);
    text.push_str(";\n");
}

/// Adds the line of a method.
pub fn push_method(decls: &[Decl], method: &Method, text: &mut GrowingText)
    ensures { Grows text.old text.new (text_of (meant.method decls.now method.now)) }
{
    if method.oneway {
        text.push_str("oneway ");
    }
    match &method.result {
        None => text.push_str("void"),
        Some(ty) => push_type(decls, ty, text),
    }
    push_name(&method.name, text);
    text.push_str("(");
    push_arguments(decls, method.args.as_slice(), text);
    writeln!(text, ") = {};", method.id);
}

// Adds arguments joined by commas.
fn push_arguments(decls: &[Decl], args: &[Arg], text: &mut GrowingText)
    ensures { Grows text.old text.new (text_of
        (joined (λ a. meant.argument decls.now a) args.now)) }
{
    let [first, others @ ..] = args else {
        return;
    };
    push_argument(decls, first, text);
    for arg in others {
        text.push_str(", ");
        push_argument(decls, arg, text);
    }
}

// Adds an argument.
fn push_argument(decls: &[Decl], arg: &Arg, text: &mut GrowingText)
    ensures { Grows text.old text.new (text_of (meant.argument decls.now arg.now)) }
{
    push_way(arg.way, text);
    push_type(decls, &arg.ty, text);
    push_name(&arg.name, text);
}

fn push_way(way: Direction, text: &mut GrowingText)
    ensures { Grows text.old text.new (text_of (reserved (meant.way way) ∷ space ∷ [])) }
{
    match way {
        Direction::In => text.push_str("in "),
        Direction::Out => text.push_str("out "),
        Direction::InOut => text.push_str("inout "),
    }
}

/// Adds the line of an enumerator.
pub fn push_enumerator(backing: Backing, enumerator: &Enumerator, text: &mut GrowingText)
    ensures { Grows text.old text.new (text_of (meant.enumerator backing enumerator.now)) }
{
    text.push_str(enumerator.name.0.as_str());
    text.push_str(" = ");
    push_backed(backing, enumerator.value, text);
    text.push_str(",\n");
}
