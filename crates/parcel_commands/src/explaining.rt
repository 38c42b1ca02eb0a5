//! What `explain` prints: a line for each item of a parcel.
ghost use Rattle.std.specs.Prelude.{◌≡◌, ◌≤◌, ◌++◌, IfOk, codes, length, string_bytes};
ghost use Rattle.std.specs.List.{flat_map, list_all};
ghost use Rattle.growing.specs.Grows.{Grows};
ghost use Rattle.parcel_commands.specs.Explain.{bytes_at, explain_answer, is_right, item_line, items_verdict, kind_text, path_text};
ghost use Rattle.tool_frame.specs.Answer.{line};
ghost use Rattle.tool_frame.specs.Results.{Gives};
ghost use Rattle.tool_frame.specs.Shown.{shown};

use crate::steps::known_types;
use aidl_base::{OutOfMemory, Text};
use aidl_schema::Schema;
use growing::GrowingText;
use itoa::Buffer;
use parcel_explain::{Item, ItemKind};
use std::alloc::Global;
use tool_frame::{Early, Printed, Verdict, push_shown};

/// What `explain` prints of a parcel's bytes, read strictly. It takes at most 1,048,576 bytes.
#[tactic(auto, using(tool_frame::proofs::lemmas::EarlyEnds::ends_there))]
pub fn explain(alloc: Global, schema: &Schema, types: &str, parcel: &[u8]) -> Result<Printed, Early>
    requires small { length parcel.now ≤ 1048576 }
    ensures { Gives result (explain_answer schema.now.decls types.now parcel.now) }
{
    let known = known_types(alloc, schema, types)?;
    let items = parcel_explain::explain(alloc, schema, known.as_slice(), parcel)?;
    let text = lines_of(alloc, parcel, items.as_slice())?;
    Ok(Printed {
        text,
        verdict: verdict_of(items.as_slice()),
    })
}

// A line for each item.
fn lines_of(alloc: Global, parcel: &[u8], items: &[Item]) -> Result<String, OutOfMemory>
    ensures { IfOk result (λ text. string_bytes text
        ≡ flat_map (λ i. item_line parcel.now i) items.now) }
{
    let mut digits = Buffer::new();
    let mut text = GrowingText::new(alloc);
    for item in items {
        push_item(alloc, parcel, item, &mut digits, &mut text);
    }
    text.into_string()
}

// Adds the line of an item.
fn push_item(alloc: Global, parcel: &[u8], item: &Item, digits: &mut Buffer, text: &mut GrowingText)
    ensures { Grows text.old text.new (item_line parcel.now item.now) }
{
    text.push_str(digits.format(item.offset));
    text.push_str(" ");
    push_bytes(alloc, bytes_at(parcel, item), text);
    text.push_str(" ");
    text.push_str(path_text(&item.path));
    push_kind(item.kind, text);
}

// Adds the bytes of an item. Those of a word, as most items are, take no memory of their own. Digits are UTF-8, which is proved and not
// tested.
fn push_bytes(alloc: Global, bytes: &[u8], text: &mut GrowingText)
    ensures { Grows text.old text.new (shown bytes.now) }
{
    let mut digits = [0; 8];
    match hex::encode_to_slice(bytes, &mut digits) {
        Ok(()) => text.push_str(unsafe { std::str::from_utf8_unchecked(&digits) }),
        Err(_) => push_shown(alloc, bytes, text),
    }
}

// The bytes of an item.
fn bytes_at<'a>(parcel: &'a [u8], item: &Item) -> &'a [u8]
    ensures { result.now ≡ bytes_at parcel.now item.now }
{
    let rest = &parcel[parcel.len().min(item.offset as usize)..];
    &rest[..rest.len().min(item.length as usize)]
}

// A path, and `-` for the empty one.
fn path_text(path: &Text) -> &str
    ensures { result.now ≡ path_text path.now }
{
    let text = path.as_str();
    if text.is_empty() { "-" } else { text }
}

// Adds a blank, the word of a kind and the newline.
fn push_kind(kind: ItemKind, text: &mut GrowingText)
    ensures { Grows text.old text.new (codes " " ++ line (kind_text kind)) }
{
    match kind {
        ItemKind::Value => text.push_str(" value\n"),
        ItemKind::Count => text.push_str(" count\n"),
        ItemKind::Block => text.push_str(" text\n"),
        ItemKind::Bytes => text.push_str(" bytes\n"),
        ItemKind::Marker => text.push_str(" marker\n"),
        ItemKind::Size => text.push_str(" size\n"),
        ItemKind::Tag => text.push_str(" tag\n"),
        ItemKind::Tail => text.push_str(" tail\n"),
        ItemKind::Left => text.push_str(" left\n"),
        ItemKind::Stop(status) => writeln!(text, " stop {status}"),
    }
}

// How the items end: bytes that are left, and a value that can't be read, are a negative verdict.
fn verdict_of(items: &[Item]) -> Verdict
    ensures { result ≡ items_verdict items.now }
{
    if are_right(items) {
        Verdict::Done
    } else {
        Verdict::Negative
    }
}

fn are_right(items: &[Item]) -> bool
    ensures { result ≡ list_all is_right items.now }
{
    items.iter().all(|item| is_right(item))
}

// Whether it is an item of a value.
fn is_right(item: &Item) -> bool
    ensures { result ≡ is_right item.now }
{
    !matches!(item.kind, ItemKind::Left | ItemKind::Stop(_))
}
