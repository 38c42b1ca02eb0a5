//! The trees and the calls.
ghost use Rattle.std.specs.Prelude.{◌≡◌, ◌++◌, IfOk, OnOk, map, string_bytes};
ghost use Rattle.tree_make.specs.Made as meant;

use crate::numbers::in_order;
use crate::texts::{Part, path_of, push_calls, text_of};
use aidl_base::{OutOfMemory, Row, SourceFile, Text};
use growing::GrowingText;
use std::alloc::Global;

/// The text of a calls file from a newer tree to an older one, and the files of both trees, each with its path relative to the root of
/// its tree, in byte order of their paths.
#[derive(Drop)]
pub struct Made {
    pub calls: Row<u8>,
    pub new: Row<SourceFile>,
    pub old: Row<SourceFile>,
}

/// For each number below `count` a parcelable and an interface of either tree, a call of a method that both have, and one of a method
/// that the older tree lacks. The texts are our own. Memory may be wanted.
pub fn make(alloc: Global, count: u32) -> Result<Made, OutOfMemory>
    ensures calls { IfOk result (λ made. made.calls ≡ meant.calls_text count) }
    ensures new { IfOk result (λ made. map meant.file_seen made.new ≡ meant.new_files count) }
    ensures old { IfOk result (λ made. map meant.file_seen made.old ≡ meant.old_files count) }
{
    let numbers = in_order(alloc, count)?;
    let calls = calls(alloc, count)?;
    let new = files(
        alloc,
        Part::NewInterface,
        Part::NewRecord,
        numbers.as_slice(),
    )?;
    let old = files(
        alloc,
        Part::OldInterface,
        Part::OldRecord,
        numbers.as_slice(),
    )?;
    Ok(Made {
        calls: Row::from_vec(calls.into_bytes()),
        new,
        old,
    })
}

fn calls(alloc: Global, count: u32) -> Result<String, OutOfMemory>
    ensures { IfOk result (λ text. string_bytes text ≡ meant.calls_text count) }
{
    let mut text = GrowingText::new(alloc);
    for k in 0..count {
        push_calls(k, &mut text);
    }
    text.into_string()
}

// All interfaces, and then all parcelables.
fn files(
    alloc: Global,
    interface: Part,
    record_part: Part,
    numbers: &[u32],
) -> Result<Row<SourceFile>, OutOfMemory>
    ensures { IfOk result (λ files. map meant.file_seen files ≡ map
        (meant.file_of interface) numbers.now ++ map (meant.file_of record_part) numbers.now) }
{
    let mut files = Row::new(alloc);
    push_files(alloc, interface, numbers, &mut files)?;
    push_files(alloc, record_part, numbers, &mut files)?;
    Ok(files)
}

fn push_files(
    alloc: Global,
    part: Part,
    numbers: &[u32],
    files: &mut Row<SourceFile>,
) -> Result<(), OutOfMemory>
    ensures { OnOk result (map meant.file_seen files.new
        ≡ map meant.file_seen files.old ++ map (meant.file_of part) numbers.now) }
{
    for k in numbers {
        files.push(file_of(alloc, part, *k)?)?;
    }
    Ok(())
}

fn file_of(alloc: Global, part: Part, k: u32) -> Result<SourceFile, OutOfMemory>
    ensures { IfOk result (λ file. meant.file_seen file ≡ meant.file_of part k) }
{
    let path = path_of(alloc, part, k)?;
    let bytes = text_of(alloc, part, k)?;
    Ok(SourceFile {
        path: Text::from_string(path),
        bytes: Row::from_vec(bytes.into_bytes()),
    })
}
