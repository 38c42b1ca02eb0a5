//! The tokens and the trees of a file, as plain types, and the definitions of what stands for what.
#![tactic(auto)]

mod laws;
mod token;
mod tree;

pub use aidl_base::Reserved;
pub use laws::{law_tokens, law_tree};
pub use token::{Symbol, Token, TokenKind};
pub use tree::{
    AnnotTree, ArgTree, BodyTree, ConstantTree, DeclTree, DottedTree, EnumeratorTree, ExprKind,
    ExprTree, FieldTree, FileTree, InitTree, MemberTree, MethodTree, NameTree, ParamTree,
    ParsedFile, TypeTree, WayTree,
};
