//! The count of the rows that were tried, and those that came out otherwise.

use aidl_base::OutOfMemory;
use std::alloc::Global;

/// How many rows were tried, how many came out otherwise than they say, and those.
#[derive(Drop)]
pub struct Tried {
    pub rows: u64,
    pub wrong: u64,
    pub shown: String,
}

impl Tried {
    pub fn new(alloc: Global) -> Tried {
        Tried {
            rows: 0,
            wrong: 0,
            shown: String::new(alloc),
        }
    }

    /// Counts a row. Where it came out otherwise it is shown.
    pub fn row(&mut self, row: &str, wanted: &[u8], came: &[u8]) -> Result<(), OutOfMemory> {
        self.rows = self.rows.saturating_add(1);
        if wanted == came {
            return Ok(());
        }
        self.wrong = self.wrong.saturating_add(1);
        self.shown.push_str("wrong: ")?;
        self.shown.push_str(row)?;
        self.shown.push_str("\ncame out: ")?;
        self.shown.push_str(std::str::from_utf8(came).unwrap_or("bytes that are no text"))?;
        self.shown.push_str("\n\n")?;
        Ok(())
    }

    /// Counts a row that can't be read.
    pub fn unread(&mut self, row: &str) -> Result<(), OutOfMemory> {
        self.row(row, b"", b"it can't be read")
    }
}
