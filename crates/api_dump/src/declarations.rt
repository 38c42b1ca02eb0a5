//! Declarations in the canonical dump: annotations, heading, lines of members and constants, and closing brace.
#![tactic(auto, using(crate::proofs::Texts::behind), unfolding(crate::specs::Pieces::spelling))]

ghost use Rattle.std.specs.Prelude.{◌≡◌, ◌≤◌, ◌+◌, ◌++◌};
ghost use Rattle.std.specs.List.{flat_map};
ghost use Rattle.growing.specs.Grows.{Grows};
ghost use Rattle.api_dump.specs.Declarations as meant;
ghost use Rattle.api_dump.specs.Lines.{constant, enumerator, field, method};
ghost use Rattle.api_dump.specs.Pieces.{text_of};

use crate::lines::{push_constant, push_enumerator, push_field, push_method};
use crate::names::push_last;
use aidl_base::Reserved;
use aidl_schema::{Backing, Constant, Decl, Enumerator, Field, Kind, Method};
use growing::GrowingText;

/// Adds the annotations, the heading and the own lines of a declaration.
pub fn push_front(decls: &[Decl], depth: usize, decl: &Decl, text: &mut GrowingText)
    requires { depth ≤ 4294967296 }
    ensures { Grows text.old text.new (text_of (meant.front decls.now depth decl.now)) }
{
    push_indent(depth, text);
    push_annotations(decl, text);
    push_heading(decl, text);
    push_members(decls, depth + 1, &decl.kind, text);
    push_constants(decls, depth + 1, decl.constants.as_slice(), text);
}

/// Adds the brace that closes a declaration.
pub fn push_closing(depth: usize, text: &mut GrowingText)
    ensures { Grows text.old text.new (text_of (meant.closing depth)) }
{
    push_indent(depth, text);
    text.push_str("}\n");
}

// Adds two spaces a level.
fn push_indent(depth: usize, text: &mut GrowingText)
    ensures { Grows text.old text.new (text_of (meant.indent depth)) }
{
    for _ in 0..depth {
        text.push_str("  ");
    }
}

// Adds the annotations that are kept.
fn push_annotations(decl: &Decl, text: &mut GrowingText)
    ensures { Grows text.old text.new (text_of (meant.annotations decl.now)) }
{
    push_backing(&decl.kind, text);
    if decl.fixed {
        text.push_str("@FixedSize ");
    }
    if decl.vintf {
        text.push_str("@VintfStability ");
    }
}

fn push_backing(kind: &Kind, text: &mut GrowingText)
    ensures { Grows text.old text.new (text_of (meant.backing_mark kind.now)) }
{
    match kind {
        Kind::Enum(Backing::Byte, _) => text.push_str("@Backing(type=\"byte\") "),
        Kind::Enum(Backing::Int, _) => text.push_str("@Backing(type=\"int\") "),
        Kind::Enum(Backing::Long, _) => text.push_str("@Backing(type=\"long\") "),
        Kind::Interface(_) | Kind::Parcelable(_) | Kind::Union(_) => {}
    }
}

// Adds the kind, the simple name and the brace that opens a declaration.
fn push_heading(decl: &Decl, text: &mut GrowingText)
    ensures { Grows text.old text.new (text_of (meant.heading decl.now)) }
{
    text.push_str(kind_word(&decl.kind).word());
    text.push_str(" ");
    push_last(decl.name.0.as_slice(), text);
    text.push_str(" {\n");
}

fn kind_word(kind: &Kind) -> Reserved
    ensures { result ≡ meant.kind_word kind.now }
{
    match kind {
        Kind::Interface(_) => Reserved::Interface,
        Kind::Parcelable(_) => Reserved::Parcelable,
        Kind::Union(_) => Reserved::Union,
        Kind::Enum(_, _) => Reserved::Enum,
    }
}

// Adds the lines of the members.
fn push_members(decls: &[Decl], depth: usize, kind: &Kind, text: &mut GrowingText)
    ensures { Grows text.old text.new (text_of (meant.member_lines decls.now depth kind.now)) }
{
    match kind {
        Kind::Interface(methods) => push_methods(decls, depth, methods.as_slice(), text),
        Kind::Parcelable(fields) | Kind::Union(fields) => {
            push_fields(decls, depth, fields.as_slice(), text)
        }
        Kind::Enum(backing, items) => push_enumerators(depth, *backing, items.as_slice(), text),
    }
}

fn push_methods(decls: &[Decl], depth: usize, methods: &[Method], text: &mut GrowingText)
    ensures { Grows text.old text.new (text_of
        (flat_map (λ x. meant.indent depth ++ method decls.now x) methods.now)) }
{
    for each in methods {
        push_indent(depth, text);
        push_method(decls, each, text);
    }
}

fn push_fields(decls: &[Decl], depth: usize, fields: &[Field], text: &mut GrowingText)
    ensures { Grows text.old text.new (text_of
        (flat_map (λ x. meant.indent depth ++ field decls.now x) fields.now)) }
{
    for each in fields {
        push_indent(depth, text);
        push_field(decls, each, text);
    }
}

fn push_enumerators(depth: usize, backing: Backing, items: &[Enumerator], text: &mut GrowingText)
    ensures { Grows text.old text.new (text_of
        (flat_map (λ x. meant.indent depth ++ enumerator backing x) items.now)) }
{
    for each in items {
        push_indent(depth, text);
        push_enumerator(backing, each, text);
    }
}

fn push_constants(decls: &[Decl], depth: usize, constants: &[Constant], text: &mut GrowingText)
    ensures { Grows text.old text.new (text_of
        (flat_map (λ x. meant.indent depth ++ constant decls.now x) constants.now)) }
{
    for each in constants {
        push_indent(depth, text);
        push_constant(decls, each, text);
    }
}
