//! Tables of runs, which have lines in common.

use crate::again::lines_of;
use crate::case::case_of;
use crate::run::Run;
use crate::texts::text_of;
use crate::tried::Tried;
use aidl_base::OutOfMemory;
use std::alloc::Global;

/// What stands in front of the arrow of a case.
#[derive(Clone, Copy)]
pub enum Cases {
    /// `TYPES: CONTENT`, the types and the content of the file `f`
    Types,
    /// `PATH: TEXT || PATH: TEXT`, the files of the store
    Files,
    /// `LINE || LINE`, lines of a run
    Lines,
}

/// Tries a block that is a table of runs. Its first lines tell what all have, and each case is
/// `SOURCE => EXIT | LINE | LINE`.
pub fn try_runs(
    alloc: Global,
    cases: Cases,
    block: &str,
    tried: &mut Tried,
) -> Result<(), OutOfMemory> {
    for line in block.lines() {
        if let Some((source, wanted)) = case_of(line) {
            let mut run = Run::new(alloc);
            if add_common(alloc, block, &mut run)?
                && add_source(alloc, cases, source, &mut run)?
                && add_wanted(alloc, wanted, &mut run)?
            {
                run.try_as(alloc, line, tried)?;
            } else {
                tried.unread(line)?;
            }
        }
    }
    Ok(())
}

// Adds what all runs of the table have. Whether all of its lines tell something.
fn add_common(alloc: Global, block: &str, run: &mut Run) -> Result<bool, OutOfMemory> {
    let mut is_read = true;
    for line in block.lines() {
        is_read = is_read && (case_of(line).is_some() || run.add(alloc, line)?);
    }
    Ok(is_read)
}

// Adds what stands in front of the arrow. Whether it tells something.
fn add_source(
    alloc: Global,
    cases: Cases,
    source: &str,
    run: &mut Run,
) -> Result<bool, OutOfMemory> {
    match cases {
        Cases::Types => add_types(alloc, source, run),
        Cases::Files => add_files(alloc, source, run),
        Cases::Lines => add_lines(alloc, source, run),
    }
}

fn add_types(alloc: Global, source: &str, run: &mut Run) -> Result<bool, OutOfMemory> {
    let Some((types, content)) = source.split_once(": ") else {
        return Ok(false);
    };
    run.set_types(alloc, types)?;
    run.add_file(alloc, "f")?;
    run.add_text(alloc, content, b"")
}

// Adds files of the store; an empty text has none.
fn add_files(alloc: Global, source: &str, run: &mut Run) -> Result<bool, OutOfMemory> {
    let mut is_read = true;
    for file in source.split(" || ") {
        if let Some((path, text)) = file.split_once(": ") {
            run.add_file(alloc, path)?;
            run.add_text(alloc, text, b"")?;
        } else {
            is_read = is_read && source.is_empty();
        }
    }
    Ok(is_read)
}

// Adds lines of a run. Whether each tells something.
fn add_lines(alloc: Global, source: &str, run: &mut Run) -> Result<bool, OutOfMemory> {
    let mut is_read = true;
    for line in source.split(" || ") {
        is_read = is_read && run.add(alloc, line)?;
    }
    Ok(is_read)
}

// Adds the exit and the printed lines. Whether the exit is one.
fn add_wanted(alloc: Global, wanted: &str, run: &mut Run) -> Result<bool, OutOfMemory> {
    let wanted = text_of(alloc, wanted)?;
    let mut is_read = false;
    for part in wanted.as_str().split(" | ") {
        if is_read {
            print_lines(alloc, part, run)?;
        } else {
            is_read = run.set_exit(part);
        }
    }
    Ok(is_read)
}

// Adds a line to what is to be printed, or the lines that it stands for.
fn print_lines(alloc: Global, part: &str, run: &mut Run) -> Result<(), OutOfMemory> {
    for line in lines_of(alloc, part)? {
        run.print_line(line.as_str())?;
    }
    Ok(())
}
