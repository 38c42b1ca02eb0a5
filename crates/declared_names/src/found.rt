//! A declaration as it is found in a tree.
use aidl_base::DottedName;
use aidl_syntax::DeclTree;

/// A declaration of a tree: its canonical name, the 0-based number of its file, the number of the declaration that
/// encloses it, and its tree.
#[derive(Drop)]
pub struct Found<'a> {
    pub name: DottedName,
    pub file: u32,
    pub outer: Option<u32>,
    pub tree: &'a DeclTree,
}
