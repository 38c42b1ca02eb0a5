//! A breach of a check rule, as a row that is reported.

/// A broken check rule: its number, from 1 for E1 to 24 for E24; the 0-based number of the file; and the place in
/// that file, in bytes from its start.
#[derive(Clone, Copy, PartialEq, Eq)]
pub struct Breach {
    pub rule: u8,
    pub file: u32,
    pub offset: u32,
}
