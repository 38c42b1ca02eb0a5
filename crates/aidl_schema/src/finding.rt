//! Look-ups in a schema: declarations by canonical name, and methods by transaction code.
ghost use Rattle.std.specs.Prelude.{◌≡◌, [], ◌∷◌, ◌++◌, List, ℕ, MatchResult};
ghost use Rattle.std.specs.Cmp.Lexicographic.{slice_cmp};
ghost use Rattle.std.specs.Ordering.{nat_cmp};
ghost use Rattle.std.specs.Str.{encode_utf8_all};
ghost use Rattle.aidl_base.specs.Names.{dotted};
ghost use Rattle.aidl_schema.specs.steps.Dots.{with_dots};
ghost use Rattle.aidl_schema.specs.Find as find;

use crate::laws::law_valid;
use crate::members::methods_at;
use crate::schema::{Kind, Method, Schema};
use aidl_base::Ident;
use std::cmp::Ordering;

/// The number of the declaration that has a canonical name, found by halving. Its stack is as deep as
/// the name has parts.
pub fn find(schema: &Schema, name: &str) -> Option<u32>
    ensures { result ≡ find.number_of_name schema.now.decls name.now }
{
    law_valid(schema);
    let decls = schema.decls.as_slice();
    match decls.binary_search_by(|decl| name_order(decl.name.0.as_slice(), name.as_bytes())) {
        Ok(i) => Some(i as u32),
        Err(_) => None,
    }
}

// How the parts of a name, joined by dots, stand to a text by their bytes.
fn name_order(parts: &[Ident], text: &[u8]) -> Ordering
    ensures { result ≡ slice_cmp nat_cmp (encode_utf8_all (dotted parts.now)) text.now }
{
    match parts {
        [] => end_order(text),
        [first, others @ ..] => match front_order(first.0.as_str().as_bytes(), text) {
            Ok(rest) => dots_order(others, rest),
            Err(order) => order,
        },
    }
}

// The same of parts with a dot before each.
fn dots_order(parts: &[Ident], text: &[u8]) -> Ordering
    ensures { result ≡ slice_cmp nat_cmp (with_dots parts.now) text.now }
{
    match parts {
        [] => end_order(text),
        [first, others @ ..] => match dot_order(first.0.as_str().as_bytes(), text) {
            Ok(rest) => dots_order(others, rest),
            Err(order) => order,
        },
    }
}

// The same of nothing.
fn end_order(text: &[u8]) -> Ordering
    ensures { result ≡ slice_cmp nat_cmp [] text.now }
{
    match text {
        [] => Ordering::Equal,
        _ => Ordering::Less,
    }
}

// The text after a dot and this front, or how they stand to it, whatever follows.
fn dot_order<'a>(front: &[u8], text: &'a [u8]) -> Result<&'a [u8], Ordering>
    ensures { MatchResult result (λ rest. text.now ≡ 46 ∷ front.now ++ rest.now)
        (λ order. (more : List ℕ) → slice_cmp nat_cmp (46 ∷ front.now ++ more) text.now ≡ order) }
{
    match front_order(b".", text) {
        Ok(rest) => front_order(front, rest),
        Err(order) => Err(order),
    }
}

// The text after this front, or how the front and whatever follows it stands to a text that doesn't begin so.
fn front_order<'a>(front: &[u8], text: &'a [u8]) -> Result<&'a [u8], Ordering>
    ensures { MatchResult result (λ rest. text.now ≡ front.now ++ rest.now)
        (λ order. (more : List ℕ) → slice_cmp nat_cmp (front.now ++ more) text.now ≡ order) }
{
    let len = front.len().min(text.len());
    match front.cmp(&text[..len]) {
        Ordering::Equal => Ok(&text[len..]),
        order => Err(order),
    }
}

/// The number of the interface of a canonical name, None where no declaration has it or it is none of an interface.
pub fn interface_named(schema: &Schema, name: &str) -> Option<u32>
    ensures { result ≡ find.interface_named schema.now.decls name.now }
{
    match find(schema, name) {
        Some(number) if is_interface(schema, number) => Some(number),
        _ => None,
    }
}

fn is_interface(schema: &Schema, number: u32) -> bool
    ensures { result ≡ find.is_interface schema.now.decls number }
{
    match schema.decls.as_slice().get(number as usize) {
        Some(decl) => matches!(decl.kind, Kind::Interface(_)),
        None => false,
    }
}

/// The position of the interface's method that has a transaction code.
pub fn method_of_code(schema: &Schema, interface: u32, code: u32) -> Option<u32>
    ensures { result ≡ find.position_of_code (find.methods_at schema.now.decls interface) code }
{
    law_valid(schema);
    match position_of_code(methods_at(schema, interface), code) {
        Some(i) => Some(i as u32),
        None => None,
    }
}

fn position_of_code(methods: &[Method], code: u32) -> Option<usize>
    ensures { result ≡ find.position_of_code methods.now code }
{
    methods
        .iter()
        .position(|method| u64::from(method.id) + 1 == u64::from(code))
}
