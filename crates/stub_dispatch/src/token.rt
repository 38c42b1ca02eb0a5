//! The token that begins a request: two words, the header, and the name of the interface.
ghost use Rattle.std.specs.Prelude.{◌≡◌, ◌∷◌, ◌≤◌, ◌^◌, ◌<◌, IfOk, length, min, OnOk};
ghost use Rattle.aidl_base.specs.Names.{dotted};
ghost use Rattle.aidl_base.specs.Words.{units};
ghost use Rattle.parcel_words.specs.Taken.{TakesIfMemory};
ghost use Rattle.parcel_words.specs.Written.{with_bytes};
ghost use Rattle.stub_dispatch.specs.steps.Names.{dots};
ghost use Rattle.stub_dispatch.specs.Tokens.{IsRest};
ghost use Rattle.stub_dispatch.specs.steps.Begins.{Begins};
ghost use Rattle.wire_model.specs.Calls.{descriptor};
ghost use Rattle.wire_model.specs.Receiver.{header_at, token_at};
ghost use Rattle.wire_model.specs.Requests.{token};

use crate::call_reader::CallReader;
use aidl_base::{Ident, OutOfMemory, Profile, Text, joined_by_dots};
use aidl_schema::Schema;
use parcel_words::{ReadFault, Wire, WordWriter, unit_count};
use std::alloc::Global;

// The header word of a token, `SYST`.
const HEADER: i32 = 0x5359_5354;

/// The number of bytes of an interface's token, or `usize::MAX` where they are more.
#[tactic(auto, using(crate::proofs::Names::token_count))]
pub fn token_length(schema: &Schema, interface: u32) -> usize
    ensures { result ≡ min (length (token (descriptor schema.now.decls interface))) usize.MAX }
{
    let units = name_units(parts_of(schema, interface));
    (units / 2 + 2).saturating_mul(4).saturating_add(12)
}

/// Appends the token of a name.
pub fn put_token(name: &Text, to: &mut WordWriter)
    requires small { length (token name.now) < 2 ^ 31 }
    requires room { length (token name.now) ≤ to.old.room }
    ensures { to.new ≡ with_bytes to.old (token name.now) }
{
    to.word(i32::MIN);
    to.word(-1);
    to.word(HEADER);
    name.put(to);
}

/// The canonical name of an interface.
pub fn descriptor_of(alloc: Global, schema: &Schema, interface: u32) -> Result<Text, OutOfMemory>
    ensures { IfOk result (λ text. text ≡ descriptor schema.now.decls interface) }
{
    joined_by_dots(alloc, parts_of(schema, interface))
}

/// The bytes after the token of a name, None where the bytes don't begin with it.
pub fn after_token<'a>(
    alloc: Global,
    profile: Profile,
    name: &Text,
    bytes: &'a [u8],
) -> Result<Option<&'a [u8]>, OutOfMemory>
    ensures { IfOk result (λ rest. IsRest rest (token_at profile name.now bytes.now)) }
{
    let mut from = CallReader::new(profile, bytes);
    if begins_with(alloc, name, &mut from)? {
        Ok(Some(from.rest()))
    } else {
        Ok(None)
    }
}

/// Whether the bytes begin with the token of a name, which is then passed.
pub fn begins_with(
    alloc: Global,
    name: &Text,
    from: &mut CallReader<'_>,
) -> Result<bool, OutOfMemory>
    ensures { IfOk result (λ begins. Begins begins
        (token_at from.old.profile name.now from.old.bytes) from.old from.new) }
{
    match header_from(alloc, from) {
        Ok((header, text)) => Ok(header == HEADER && text.as_str() == name.as_str()),
        Err(ReadFault::OutOfMemory) => Err(OutOfMemory),
        Err(_) => Ok(false),
    }
}

// What begins a request: eight bytes that nobody looks at, the header word and a name.
#[tactic(auto, unfolding(wire_model::specs::Receiver::header_at))]
fn header_from(alloc: Global, from: &mut CallReader<'_>) -> Result<(i32, Text), ReadFault>
    ensures taken { TakesIfMemory (λ x. x) result
        (header_at from.old.profile from.old.bytes) from.new.bytes }
    ensures same { OnOk result (from.new.profile ≡ from.old.profile) }
{
    from.pass_eight()?;
    let header = from.word()?;
    let name = from.text(alloc)?;
    Ok((header, name))
}

// The parts of the canonical name of an interface.
fn parts_of(schema: &Schema, interface: u32) -> &[Ident]
    ensures { dotted result.now ≡ descriptor schema.now.decls interface }
{
    match schema.decls.as_slice().get(interface as usize) {
        Some(decl) => decl.name.0.as_slice(),
        None => &[],
    }
}

// The number of UTF-16 units of parts joined by dots, or `usize::MAX` where they are more.
fn name_units(parts: &[Ident]) -> usize
    ensures { result ≡ min (length (units (dotted parts.now))) usize.MAX }
{
    match parts {
        [] => 0,
        [first, others @ ..] => joined_units(first, others),
    }
}

// The same of a first part and others.
fn joined_units(first: &Ident, others: &[Ident]) -> usize
    ensures { result ≡ min (length (units (dotted (first.now ∷ others.now)))) usize.MAX }
{
    unit_count(first.0.as_str()).saturating_add(dots_units(others))
}

// The same of parts with a dot before each.
#[tactic(auto, using(crate::proofs::Names::dots_count))]
fn dots_units(parts: &[Ident]) -> usize
    ensures { result ≡ min (length (units (dots parts.now))) usize.MAX }
{
    match parts {
        [] => 0,
        [first, others @ ..] => unit_count(first.0.as_str())
            .saturating_add(1)
            .saturating_add(dots_units(others)),
    }
}
