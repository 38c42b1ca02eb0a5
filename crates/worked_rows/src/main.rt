//! Runs the rows of the files in `data/`. It prints each row that comes out otherwise than it says, with what came out,
//! and last how many rows there were and how many were wrong. `data/README` says how a row is written.
#![tactic(auto)]

mod again;
mod carries;
mod case;
mod run;
mod runs;
mod sources;
mod texts;
mod trees;
mod tried;

use crate::case::word_of;
use crate::run::try_run;
use crate::runs::{Cases, try_runs};
use crate::sources::try_sources;
use crate::trees::try_trees;
use crate::tried::Tried;
use aidl_base::OutOfMemory;
use case_sources::{Asked, Kind};
use std::alloc::Global;
use std::io::ErrorKind;
use std::{fs, io};

const FILES: [&str; 25] = [
    "words.rows",
    "decode.rows",
    "encode.rows",
    "explain.rows",
    "lexer.rows",
    "parser.rows",
    "constants.rows",
    "names.rows",
    "outcomes.rows",
    "types.rows",
    "places.rows",
    "check.rows",
    "trees.rows",
    "judge.rows",
    "versions.rows",
    "dumps.rows",
    "freezing.rows",
    "ask.rows",
    "calls.rows",
    "tampered.rows",
    "headline.rows",
    "replay.rows",
    "make.rows",
    "witness.rows",
    "failing.rows",
];

fn main(rt: HostRuntime) -> io::Result<()> {
    let mut tried = Tried::new(rt.alloc());
    for file in FILES {
        let text = fs::read_to_string(&rt, file)?;
        if try_file(rt.alloc(), text.as_str(), &mut tried).is_err() {
            return Err(io::Error::from(ErrorKind::OutOfMemory));
        }
    }
    println!(rt; "{}{} rows, {} wrong", tried.shown, tried.rows, tried.wrong)
}

// Tries each block of lines of a file.
fn try_file(alloc: Global, text: &str, tried: &mut Tried) -> Result<(), OutOfMemory> {
    for block in text.split("\n\n") {
        try_block(alloc, block, tried)?;
    }
    Ok(())
}

// Tries a block: its first line that is no comment says what kind of rows it holds.
fn try_block(alloc: Global, block: &str, tried: &mut Tried) -> Result<(), OutOfMemory> {
    let Some(head) = block.lines().find(|line| !line.starts_with('#')) else {
        return Ok(());
    };
    match word_of(head).0 {
        "" => Ok(()),
        "run" => try_run(alloc, block, tried),
        "runs" => try_runs(alloc, Cases::Types, block, tried),
        "trees" => try_runs(alloc, Cases::Files, block, tried),
        "edits" => try_runs(alloc, Cases::Lines, block, tried),
        "lex" => try_sources(alloc, Kind::Tokens, block, tried),
        "count" => try_sources(alloc, Kind::Count, block, tried),
        "parse" => try_sources(alloc, Kind::Tree, block, tried),
        "place" => try_sources(alloc, Kind::Place, block, tried),
        "accept" => try_sources(alloc, Kind::Acceptance, block, tried),
        "evaluate" => try_sources(alloc, Kind::Value, block, tried),
        "names" => try_trees(alloc, Asked::Names, block, tried),
        "constants" => try_trees(alloc, Asked::Constants, block, tried),
        "types" => try_trees(alloc, Asked::Types, block, tried),
        _ => tried.unread(block),
    }
}
