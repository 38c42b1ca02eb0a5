//! The data of marshalling plans: the items, what their words say, the fields, and where a method's arguments and result begin.

use aidl_base::{Const, Row};

/// The number of an item. It stands for the type of that item.
#[derive(Clone, Copy, PartialEq, Eq)]
pub struct PlanId(pub usize);

/// The plans of a schema and of some types beside it. `fields` has the fields of each declaration once, so a type that reaches
/// itself ends. `starts` has where the arguments and results of methods begin, `extras` one id for each type beside the schema.
pub struct Plans {
    pub items: Row<PlanItem>,
    pub fields: Row<PlanField>,
    pub starts: Row<PlanStart>,
    pub extras: Row<PlanId>,
}

impl Drop for Plans {
    fn drop(self) {
        let Plans {
            items: _,
            fields: _,
            starts: _,
            extras: _,
        } = self;
    }
}

/// How the values of one type stand in bytes. `nullable` is the type's flag. `first` and `count` are where in `fields` the fields
/// of the declaration begin, and how many they are.
#[derive(Clone, Copy)]
pub enum PlanItem {
    Word {
        kind: WordKind,
    },
    Long,
    Text {
        nullable: bool,
    },
    /// an array of bytes, which stand as they are
    Raw {
        nullable: bool,
    },
    /// any other sequence
    Seq {
        nullable: bool,
        element: PlanId,
    },
    /// a parcelable
    Rec {
        nullable: bool,
        first: usize,
        count: usize,
    },
    /// a union
    Alt {
        nullable: bool,
        first: usize,
        count: usize,
    },
}

/// What a word of four bytes says.
#[derive(Clone, Copy, PartialEq, Eq)]
pub enum WordKind {
    Truth,
    Byte,
    Char,
    Int,
}

/// A field of a parcelable or union: the item of its type, and its initializer where it has one.
#[derive(Drop)]
pub struct PlanField {
    pub item: PlanId,
    pub initial: Option<Const>,
}

/// Where an argument of a method begins, with its position as `place`, or where the method's result does, with None.
#[derive(Clone, Copy)]
pub struct PlanStart {
    pub interface: u32,
    pub method: u32,
    pub place: Option<u32>,
    pub item: PlanId,
}

/// Which method it is: the number of its interface in the schema, and its own in the interface, both from 0.
#[derive(Clone, Copy)]
pub struct MethodNumbers {
    pub interface: u32,
    pub method: u32,
}
