//! A run as the lines of a row describe it, how it is tried, and how it ended as text.

use crate::again::lines_of;
use crate::carries::Carries;
use crate::case::word_of;
use crate::texts::{plain, text_of};
use crate::tried::Tried;
use aidl_base::{OutOfMemory, Row, SourceFile, Text};
use memory_outside::{MemSink, MemStore};
use std::alloc::Global;

/// A run of the program: its words, the files of its store, its link, the outside calls that fail, and what is to come
/// of it.
#[derive(Drop)]
pub struct Run {
    words: Vec<String>,
    files: Vec<File>,
    left: Option<Vec<File>>,
    store_fails: Vec<u64>,
    sink_fails: Vec<u64>,
    carries: Carries,
    exit: Option<u8>,
    printed: Vec<u8>,
    to: Part,
}

#[derive(Drop)]
struct File {
    path: String,
    bytes: Vec<u8>,
}

// What a line of text adds to.
#[derive(Clone, Copy)]
enum Part {
    Files,
    Printed,
    Left,
}

/// Tries a block that is one run.
pub fn try_run(alloc: Global, block: &str, tried: &mut Tried) -> Result<(), OutOfMemory> {
    let mut run = Run::new(alloc);
    let mut is_read = true;
    for line in block.lines() {
        is_read = is_read && run.add(alloc, line)?;
    }
    if !is_read {
        return tried.unread(block);
    }
    run.try_as(alloc, block, tried)
}

impl Run {
    /// A run of no words over an empty store.
    pub fn new(alloc: Global) -> Run {
        Run {
            words: Vec::new(alloc),
            files: Vec::new(alloc),
            left: None,
            store_fails: Vec::new(alloc),
            sink_fails: Vec::new(alloc),
            carries: Carries::new(alloc),
            exit: None,
            printed: Vec::new(alloc),
            to: Part::Files,
        }
    }

    /// Adds what a line tells, or the lines that it stands for. Whether each tells something.
    pub fn add(&mut self, alloc: Global, line: &str) -> Result<bool, OutOfMemory> {
        let mut is_read = true;
        for each in lines_of(alloc, line)? {
            is_read = is_read && self.add_one(alloc, each.as_str())?;
        }
        Ok(is_read)
    }

    fn add_one(&mut self, alloc: Global, line: &str) -> Result<bool, OutOfMemory> {
        let (what, rest) = word_of(line);
        match what {
            "#" => Ok(true),
            "run" | "runs" | "trees" | "edits" => self.add_words(alloc, rest),
            "word" => self.add_word(alloc, rest),
            "file" => self.add_file(alloc, rest),
            "left" => self.add_left(alloc, rest),
            "|" => self.add_text(alloc, rest, b"\n"),
            ">" => self.add_text(alloc, rest, b""),
            "exit" => Ok(self.set_exit(rest)),
            "store_fails" => add_number(&mut self.store_fails, rest),
            "sink_fails" => add_number(&mut self.sink_fails, rest),
            "link_fails" | "cut" | "cuts" | "set" | "append" => self.carries.add(alloc, what, rest),
            "carried" => self.carries.add_entry(rest),
            _ => Ok(false),
        }
    }

    /// Puts a text for each word TYPES.
    pub fn set_types(&mut self, alloc: Global, types: &str) -> Result<(), OutOfMemory> {
        for word in self.words.iter_mut() {
            if word.as_str() == "TYPES" {
                *word = text_of(alloc, types)?;
            }
        }
        Ok(())
    }

    /// Adds a file of the store.
    pub fn add_file(&mut self, alloc: Global, path: &str) -> Result<bool, OutOfMemory> {
        self.to = Part::Files;
        self.files.push(File::new(alloc, path)?)?;
        Ok(true)
    }

    /// Adds a text and an end to what the lines before speak of: the last file, what is printed, or the last file that is left.
    pub fn add_text(&mut self, alloc: Global, text: &str, end: &[u8]) -> Result<bool, OutOfMemory> {
        let text = plain(alloc, text)?;
        match self.to {
            Part::Printed => push_text(&mut self.printed, text.as_slice(), end),
            Part::Files => push_to_last(&mut self.files, text.as_slice(), end),
            Part::Left => match &mut self.left {
                Some(left) => push_to_last(left, text.as_slice(), end),
                None => Ok(false),
            },
        }
    }

    /// Sets the wanted exit. Whether it is one.
    pub fn set_exit(&mut self, exit: &str) -> bool {
        self.to = Part::Printed;
        self.exit = exit.parse::<u8>().ok();
        self.exit.is_some()
    }

    /// Adds a line to what is to be printed.
    pub fn print_line(&mut self, line: &str) -> Result<(), OutOfMemory> {
        self.printed.extend_from_slice(line.as_bytes())?;
        self.printed.extend_from_slice(b"\n")?;
        Ok(())
    }

    fn add_words(&mut self, alloc: Global, words: &str) -> Result<bool, OutOfMemory> {
        for word in words.split_whitespace() {
            self.words.push(text_of(alloc, word)?)?;
        }
        Ok(true)
    }

    fn add_word(&mut self, alloc: Global, word: &str) -> Result<bool, OutOfMemory> {
        self.words.push(text_of(alloc, word)?)?;
        Ok(true)
    }

    fn add_left(&mut self, alloc: Global, path: &str) -> Result<bool, OutOfMemory> {
        self.to = Part::Left;
        if self.left.is_none() {
            self.left = Some(Vec::new(alloc));
        }
        if let Some(left) = &mut self.left
            && path != "nothing"
        {
            left.push(File::new(alloc, path)?)?;
        }
        Ok(true)
    }

    /// Runs the program over objects in memory, and counts how the run came out.
    pub fn try_as(self, alloc: Global, row: &str, tried: &mut Tried) -> Result<(), OutOfMemory> {
        let wanted = self.wanted(alloc)?;
        let Run {
            words,
            files,
            store_fails,
            sink_fails,
            carries,
            ..
        } = self;
        let files = rows_of(alloc, files.as_slice())?;
        let mut store = MemStore::new(alloc, files, Row::from_vec(store_fails))?;
        let mut sink = MemSink::new(alloc, Row::from_vec(sink_fails))?;
        let (exit, log) = carries.run(alloc, words.as_slice(), &mut store, &mut sink)?;
        let came = ended(alloc, Some(exit), sink.bytes(), log.as_str(), store.files())?;
        tried.row(row, wanted.as_slice(), came.as_slice())
    }

    // How the run is to end.
    fn wanted(&self, alloc: Global) -> Result<Vec<u8>, OutOfMemory> {
        let left = match &self.left {
            Some(left) => left.as_slice(),
            None => self.files.as_slice(),
        };
        let store = MemStore::new(alloc, rows_of(alloc, left)?, Row::new(alloc))?;
        let log = self.carries.wanted();
        ended(
            alloc,
            self.exit,
            self.printed.as_slice(),
            log,
            store.files(),
        )
    }
}

impl File {
    fn new(alloc: Global, path: &str) -> Result<File, OutOfMemory> {
        Ok(File {
            path: text_of(alloc, path)?,
            bytes: Vec::new(alloc),
        })
    }
}

fn push_text(bytes: &mut Vec<u8>, text: &[u8], end: &[u8]) -> Result<bool, OutOfMemory> {
    bytes.extend_from_slice(text)?;
    bytes.extend_from_slice(end)?;
    Ok(true)
}

// Adds to the last file, where there is one.
fn push_to_last(files: &mut Vec<File>, text: &[u8], end: &[u8]) -> Result<bool, OutOfMemory> {
    match files.last_mut() {
        Some(file) => push_text(&mut file.bytes, text, end),
        None => Ok(false),
    }
}

fn add_number(numbers: &mut Vec<u64>, text: &str) -> Result<bool, OutOfMemory> {
    match text.parse::<u64>() {
        Ok(number) => {
            numbers.push(number)?;
            Ok(true)
        }
        Err(_) => Ok(false),
    }
}

fn rows_of(alloc: Global, files: &[File]) -> Result<Row<SourceFile>, OutOfMemory> {
    let mut rows = Row::new(alloc);
    for file in files {
        rows.push(SourceFile {
            path: Text::from_str(alloc, file.path.as_str())?,
            bytes: Row::from_vec(Vec::from_slice(alloc, file.bytes.as_slice())?),
        })?;
    }
    Ok(rows)
}

// How a run ended, as one text: its exit, what was printed, what was carried and which files the store holds.
fn ended(
    alloc: Global,
    exit: Option<u8>,
    printed: &[u8],
    log: &str,
    files: &[SourceFile],
) -> Result<Vec<u8>, OutOfMemory> {
    let exit = format!(in alloc; "exit {}\n", exit.unwrap_or(255))?;
    let mut text = Vec::from_slice(alloc, exit.as_bytes())?;
    text.extend_from_slice(printed)?;
    text.extend_from_slice(log.as_bytes())?;
    for file in files {
        text.extend_from_slice(b"file ")?;
        text.extend_from_slice(file.path.as_str().as_bytes())?;
        text.extend_from_slice(b"\n")?;
        text.extend_from_slice(file.bytes.as_slice())?;
    }
    Ok(text)
}
