//! Edits of the bytes that a link in memory delivers, by the number of the carry.
ghost use Rattle.std.specs.Prelude.{◌≡◌, ◌≢◌, ◌≤◌, ℕ, All, List, OnOk, length};
ghost use Rattle.memory_outside.specs.Edits.{edited, delivered};
ghost use Rattle.memory_outside.specs.declared.edits.EditKind.TheVariants.{Set};

use aidl_base::{OutOfMemory, Row};

/// What an edit does to bytes.
#[derive(Drop)]
pub enum EditKind {
    /// Keeps at most the first so many bytes.
    Cut(usize),
    /// Sets the byte at a 0-based place, and changes nothing where the place is past the end.
    Set { at: usize, byte: u8 },
    /// Adds these bytes at the end.
    Append(Row<u8>),
}

/// An edit of the bytes that the carry with a 0-based number delivers.
#[derive(Drop)]
pub struct Edit {
    pub carry: u64,
    pub kind: EditKind,
}

/// Applies the edits of one carry in their order.
pub fn edit_all(edits: &[Edit], carry: u64, bytes: &mut Vec<u8>) -> Result<(), OutOfMemory>
    ensures { OnOk result (bytes.new.items ≡ delivered edits.now carry bytes.old.items) }
{
    for edit in edits {
        if edit.carry == carry {
            apply(&edit.kind, bytes)?;
        }
    }
    Ok(())
}

fn apply(kind: &EditKind, bytes: &mut Vec<u8>) -> Result<(), OutOfMemory>
    ensures { OnOk result (bytes.new.items ≡ edited kind.now bytes.old.items) }
{
    match kind {
        EditKind::Cut(length) => {
            bytes.truncate(*length);
            Ok(())
        }
        EditKind::Set { at, byte } => {
            set(bytes, *at, *byte);
            Ok(())
        }
        EditKind::Append(more) => Ok(bytes.extend_from_slice(more.as_slice())?),
    }
}

fn set(bytes: &mut Vec<u8>, at: usize, byte: u8)
    ensures { bytes.new.items ≡ edited (Set at byte) bytes.old.items }
{
    if at < bytes.len() {
        bytes[at] = byte;
    }
}

/// Edits of other carries change nothing.
pub fn law_other_edits_change_nothing(edits: &[Edit], bytes: &[u8])
    ensures { (carry : ℕ) → All (λ edit. edit.carry ≢ carry) edits.now
        → delivered edits.now carry bytes.now ≡ bytes.now }
{}

/// To set a byte past the end changes nothing.
pub fn law_set_past_the_end(bytes: &[u8])
    ensures { (at byte : ℕ) → length bytes.now ≤ at → edited (Set at byte) bytes.now ≡ bytes.now }
{}
