//! An item: a part of a parcel's bytes, and what it is.
use aidl_base::Text;

/// What a part of a parcel's bytes is (own; the parts are those that docs/BYTES.md spells). docs/EXPLAIN.md says where each stands.
#[derive(Clone, Copy, PartialEq, Eq)]
pub enum ItemKind {
    /// The bytes of a value without parts that is no String: a word, or the two words of a long.
    Value,
    /// The word that counts the units of a String, or the elements of an array or a List; that of null too.
    Count,
    /// The UTF-16 units of a String, its zero unit and its padding.
    Block,
    /// The bytes of an array of raw bytes, and their padding.
    Bytes,
    /// The word before a parcelable or a union, which says whether it is null.
    Marker,
    /// The size word of a record.
    Size,
    /// The tag of a union.
    Tag,
    /// What is left of a record's bytes after the last field that its type has.
    Tail,
    /// What is left of the parcel's bytes after the last value.
    Left,
    /// All bytes from the first wrong item on, with the status that reading it answers.
    Stop(i32),
}

/// A part of a parcel's bytes: where it stands and how long it is, both in bytes, and what it is.
#[derive(Drop)]
pub struct Item {
    /// The bytes of the parcel before it.
    pub offset: u32,
    /// Its bytes.
    pub length: u32,
    /// The value that it is of, as a JSON pointer into the list of the parcel's values. It is empty for what is left after them.
    pub path: Text,
    /// What it is.
    pub kind: ItemKind,
}
