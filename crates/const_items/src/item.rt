//! An item, where it stands, and what is written of it.

use aidl_syntax::ExprTree;
use const_values::Wanted;

/// What has an outcome of its own: the number of its file, the number of the declaration that it stands in, its place in
/// bytes, whether it is an enumerator, the value that is wanted of it, whether it is left unjudged for the form of its
/// initializer, and what is written.
#[derive(Clone, Copy)]
pub struct ItemRef<'a> {
    pub file: u32,
    pub scope: u32,
    pub place: u32,
    pub enumerates: bool,
    pub wanted: Wanted,
    pub unjudged: bool,
    pub value: WrittenRef<'a>,
}

/// What is written of an item.
#[derive(Clone, Copy)]
pub enum WrittenRef<'a> {
    /// an expression
    Expression(&'a ExprTree),
    /// an enumerator without one, the first of its enum
    First,
    /// an enumerator without one, behind that at a place
    After(u32),
}
