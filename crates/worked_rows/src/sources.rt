//! Tables of source texts, each with what is wanted of it.

use crate::case::{case_of, word_of};
use crate::texts::plain;
use crate::tried::Tried;
use aidl_base::OutOfMemory;
use case_sources::{Kind, outcome_of};
use std::alloc::Global;

// What stands before and after each source of a table, and before and after each wanted text that is no refusal.
#[derive(Clone, Copy)]
struct Frame<'a> {
    source: (&'a str, &'a str),
    wanted: (&'a str, &'a str),
}

/// Tries a block that is a table of source texts: `SOURCE => WANTED` each. A line `in FRONT ... BACK` says what stands
/// around each source, and a line `is FRONT ... BACK` what stands around each wanted text that isn't a fault or a limit.
pub fn try_sources(
    alloc: Global,
    kind: Kind,
    block: &str,
    tried: &mut Tried,
) -> Result<(), OutOfMemory> {
    let mut frame = Frame {
        source: ("", ""),
        wanted: ("", ""),
    };
    for line in block.lines() {
        match case_of(line) {
            Some((source, wanted)) => {
                let came = outcome_of(
                    alloc,
                    kind,
                    framed(alloc, frame.source, source)?.as_slice(),
                )?;
                let wanted = wanted_of(alloc, frame.wanted, wanted)?;
                tried.row(line, wanted.as_slice(), came.as_bytes())?;
            }
            None => frame = frame.with(line),
        }
    }
    Ok(())
}

impl<'a> Frame<'a> {
    // The frame, with what the line says of it.
    fn with(self, line: &'a str) -> Frame<'a> {
        match word_of(line) {
            ("in", rest) => Frame {
                source: rest.split_once("...").unwrap_or(("", "")),
                wanted: self.wanted,
            },
            ("is", rest) => Frame {
                source: self.source,
                wanted: rest.split_once("...").unwrap_or(("", "")),
            },
            _ => self,
        }
    }
}

fn wanted_of(alloc: Global, frame: (&str, &str), wanted: &str) -> Result<Vec<u8>, OutOfMemory> {
    if wanted.starts_with("fault ") || wanted.starts_with("limit ") {
        return plain(alloc, wanted);
    }
    framed(alloc, frame, wanted)
}

fn framed(alloc: Global, frame: (&str, &str), text: &str) -> Result<Vec<u8>, OutOfMemory> {
    let mut bytes = plain(alloc, frame.0)?;
    bytes.extend_from_slice(plain(alloc, text)?.as_slice())?;
    bytes.extend_from_slice(plain(alloc, frame.1)?.as_slice())?;
    Ok(bytes)
}
