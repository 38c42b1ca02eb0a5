//! The link that the lines of a row describe, and its log as lines.

use crate::case::word_of;
use crate::texts::plain;
use aidl_base::{OutOfMemory, Row};
use aidl_outside::{Carried, Way};
use aidl_tool::aidl;
use memory_outside::{Edit, EditKind, MemSink, MemStore, RecordLink, TamperLink};
use std::alloc::Global;

/// The link of a run: the edits of its carries and the carries that fail; and the log that is wanted.
#[derive(Drop)]
pub struct Carries {
    edits: Row<Edit>,
    fails: Row<u64>,
    /// the lines of the log that is wanted
    log: String,
    is_unseen: bool,
}

impl Carries {
    pub fn new(alloc: Global) -> Carries {
        Carries {
            edits: Row::new(alloc),
            fails: Row::new(alloc),
            log: String::new(alloc),
            is_unseen: false,
        }
    }

    /// Adds what a line tells of the link. Whether it tells something.
    pub fn add(&mut self, alloc: Global, what: &str, rest: &str) -> Result<bool, OutOfMemory> {
        let (carry, rest) = word_of(rest);
        let Ok(carry) = carry.parse::<u64>() else {
            return Ok(false);
        };
        let kind = match what {
            "link_fails" => {
                self.fails.push(carry)?;
                return Ok(true);
            }
            "cuts" => return self.add_cuts(carry, rest),
            "cut" => rest.parse::<usize>().ok().map(EditKind::Cut),
            "set" => set_of(rest),
            _ => Some(EditKind::Append(Row::from_vec(plain(alloc, rest)?))),
        };
        let Some(kind) = kind else {
            return Ok(false);
        };
        self.edits.push(Edit { carry, kind })?;
        Ok(true)
    }

    // Cuts so many carries, each a step after the one before: the first to no byte, and each later one to one byte more.
    fn add_cuts(&mut self, first: u64, rest: &str) -> Result<bool, OutOfMemory> {
        let (step, count) = word_of(rest);
        let (Ok(step), Ok(count)) = (step.parse::<u64>(), count.parse::<usize>()) else {
            return Ok(false);
        };
        let mut carry = first;
        for length in 0..count {
            let kind = EditKind::Cut(length);
            self.edits.push(Edit { carry, kind })?;
            carry = carry.saturating_add(step);
        }
        Ok(true)
    }

    /// Adds an entry to the log that is wanted: the way, the code, and what is sent and delivered in hexadecimal; or that the log isn't
    /// looked at.
    pub fn add_entry(&mut self, entry: &str) -> Result<bool, OutOfMemory> {
        if entry == "unseen" {
            self.is_unseen = true;
            return Ok(true);
        }
        self.log.push_str("carried ")?;
        self.log.push_str(entry)?;
        self.log.push('\n')?;
        Ok(true)
    }

    /// Runs the program over the link, which is the faithful one where no carry is edited: its exit, and the lines of what was carried,
    /// where the log is looked at.
    pub fn run(
        self,
        alloc: Global,
        words: &[String],
        store: &mut MemStore,
        sink: &mut MemSink,
    ) -> Result<(u8, String), OutOfMemory> {
        let is_seen = !self.is_unseen;
        if self.edits.as_slice().is_empty() {
            let mut link = RecordLink::new(alloc, self.fails)?;
            let exit = aidl(alloc, words, store, sink, &mut link);
            return Ok((exit, shown_log(alloc, is_seen, link.log())?));
        }
        let mut link = TamperLink::new(alloc, self.edits, self.fails)?;
        let exit = aidl(alloc, words, store, sink, &mut link);
        Ok((exit, shown_log(alloc, is_seen, link.log())?))
    }

    /// The lines of the log that is wanted.
    pub fn wanted(&self) -> &str {
        self.log.as_str()
    }
}

// AT BYTE, both in decimal.
fn set_of(text: &str) -> Option<EditKind> {
    let (at, byte) = word_of(text);
    Some(EditKind::Set {
        at: at.parse::<usize>().ok()?,
        byte: byte.parse::<u8>().ok()?,
    })
}

// A log as lines, and no line where it isn't looked at.
fn shown_log(alloc: Global, is_seen: bool, log: &[Carried]) -> Result<String, OutOfMemory> {
    let mut text = String::new(alloc);
    if !is_seen {
        return Ok(text);
    }
    for entry in log {
        let way = match entry.way {
            Way::Request => "request",
            Way::Reply => "reply",
        };
        let sent = digits(alloc, entry.sent.as_slice())?;
        let delivered = digits(alloc, entry.delivered.as_slice())?;
        let line = format!(in alloc; "carried {way} {} {sent} {delivered}\n", entry.code)?;
        text.push_str(line.as_str())?;
    }
    Ok(text)
}

fn digits(alloc: Global, bytes: &[u8]) -> Result<String, OutOfMemory> {
    if bytes.is_empty() {
        return Ok(String::from_str(alloc, "-")?);
    }
    Ok(hex::encode(alloc, bytes)?)
}
