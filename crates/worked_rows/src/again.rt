//! Lines with the word `again`, which stand for several lines.

use crate::case::word_of;
use aidl_base::OutOfMemory;
use std::alloc::Global;

/// The lines that a line stands for: of `again FROM TO LINE || LINE` these lines for each number from FROM to TO, the number in
/// place of each `#`; of any other line itself.
pub fn lines_of(alloc: Global, line: &str) -> Result<Vec<String>, OutOfMemory> {
    let mut lines = Vec::new(alloc);
    match again_of(line) {
        Some((from, to, pattern)) => {
            for number in from..=to {
                push_numbered(alloc, pattern, number, &mut lines)?;
            }
        }
        None => lines.push(String::from_str(alloc, line)?)?,
    }
    Ok(lines)
}

// FROM, TO and the lines behind `again`.
fn again_of(line: &str) -> Option<(u32, u32, &str)> {
    let rest = line.strip_prefix("again ")?;
    let (from, rest) = word_of(rest);
    let (to, pattern) = word_of(rest);
    Some((from.parse::<u32>().ok()?, to.parse::<u32>().ok()?, pattern))
}

// Adds the lines of a pattern, with a number in place of each `#`.
fn push_numbered(
    alloc: Global,
    pattern: &str,
    number: u32,
    lines: &mut Vec<String>,
) -> Result<(), OutOfMemory> {
    let digits = format!(in alloc; "{number}")?;
    for line in pattern.split(" || ") {
        lines.push(line.replace(alloc, "#", digits.as_str())?)?;
    }
    Ok(())
}
