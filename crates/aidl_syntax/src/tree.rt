//! Syntax trees: files, declarations, members, types, annotations and expressions.

use crate::token::{Symbol, Token};
use aidl_base::{DottedName, Ident, Row, Text};

// Each `offset` is that of the part's first token, annotations included, in bytes from the start of the file.

/// A file's path below its tree, and what it says.
pub struct ParsedFile {
    pub path: Text,
    pub tree: FileTree,
}

impl Drop for ParsedFile {
    fn drop(self) {
        let ParsedFile { path: _, tree: _ } = self;
    }
}

/// A whole file: its package, its imports in order and its one top-level declaration.
pub struct FileTree {
    pub offset: u32,
    pub package: Option<DottedTree>,
    pub imports: Row<DottedTree>,
    pub decl: DeclTree,
}

impl Drop for FileTree {
    fn drop(self) {
        let FileTree {
            offset: _,
            package: _,
            imports: _,
            decl: _,
        } = self;
    }
}

/// An identifier.
#[derive(Drop)]
pub struct NameTree {
    pub offset: u32,
    pub name: Ident,
}

/// Identifiers joined by dots.
#[derive(Drop)]
pub struct DottedTree {
    pub offset: u32,
    pub name: DottedName,
}

/// A declaration.
#[cycle(decl)]
#[derive(Drop)]
pub struct DeclTree {
    pub offset: u32,
    pub annots: Row<AnnotTree>,
    pub name: NameTree,
    pub body: BodyTree,
}

/// What a declaration declares, with its parts in order.
#[cycle(decl)]
#[derive(Drop)]
pub enum BodyTree {
    Parcelable(Row<MemberTree>),
    Union(Row<MemberTree>),
    Enum(Row<EnumeratorTree>),
    Interface {
        oneway: bool,
        members: Row<MemberTree>,
    },
}

/// A member of a parcelable, a union or an interface.
#[cycle(decl)]
#[derive(Drop)]
pub enum MemberTree {
    Field(FieldTree),
    Constant(ConstantTree),
    Method(MethodTree),
    Nested(DeclTree),
}

/// A field of a parcelable or a union, with its initializer where it has one.
#[derive(Drop)]
pub struct FieldTree {
    pub offset: u32,
    pub annots: Row<AnnotTree>,
    pub ty: TypeTree,
    pub name: NameTree,
    pub initial: Option<InitTree>,
}

/// A constant.
#[derive(Drop)]
pub struct ConstantTree {
    pub offset: u32,
    pub annots: Row<AnnotTree>,
    pub ty: TypeTree,
    pub name: NameTree,
    pub value: ExprTree,
}

/// An enumerator, with its expression where it has one.
#[derive(Drop)]
pub struct EnumeratorTree {
    pub offset: u32,
    pub name: NameTree,
    pub value: Option<ExprTree>,
}

/// A method. Its `result` is None for `void`, and its `id` is the token of the number after `=`, where one stands.
#[derive(Drop)]
pub struct MethodTree {
    pub offset: u32,
    pub annots: Row<AnnotTree>,
    pub oneway: bool,
    pub result: Option<TypeTree>,
    pub name: NameTree,
    pub args: Row<ArgTree>,
    pub id: Option<Token>,
}

/// The direction of an argument.
#[derive(Clone, Copy, PartialEq, Eq)]
pub enum WayTree {
    In,
    Out,
    InOut,
}

/// An argument, with its direction where one is written. Its annotations are those before the direction and those
/// after it, as one list.
#[derive(Drop)]
pub struct ArgTree {
    pub offset: u32,
    pub annots: Row<AnnotTree>,
    pub way: Option<WayTree>,
    pub ty: TypeTree,
    pub name: NameTree,
}

/// A type: a name, the name between `<` and `>` where there is one, and whether `[]` follows.
pub struct TypeTree {
    pub offset: u32,
    pub name: DottedTree,
    pub element: Option<DottedTree>,
    pub array: bool,
}

impl Drop for TypeTree {
    fn drop(self) {
        let TypeTree {
            offset: _,
            name: _,
            element: _,
            array: _,
        } = self;
    }
}

/// An initializer: one expression, or a list of them in braces.
#[derive(Drop)]
pub enum InitTree {
    Single(ExprTree),
    Braces { offset: u32, items: Row<ExprTree> },
}

/// An annotation.
pub struct AnnotTree {
    pub offset: u32,
    pub name: NameTree,
    pub params: Row<ParamTree>,
}

impl Drop for AnnotTree {
    fn drop(self) {
        let AnnotTree {
            offset: _,
            name: _,
            params: _,
        } = self;
    }
}

/// A parameter of an annotation, with its name where one is written.
#[derive(Drop)]
pub struct ParamTree {
    pub offset: u32,
    pub name: Option<NameTree>,
    pub value: InitTree,
}

/// An expression.
#[cycle(expr)]
pub struct ExprTree {
    pub offset: u32,
    pub kind: ExprKind,
}

impl Drop for ExprTree {
    fn drop(self) {
        let ExprTree { offset: _, kind: _ } = self;
    }
}

/// What an expression is.
#[cycle(expr)]
#[derive(Drop)]
pub enum ExprKind {
    /// a number, a character, a string, `true` or `false`, as its token
    Literal(Token),
    /// a name
    Name(DottedTree),
    /// an expression in parentheses
    Group(Box<ExprTree>),
    /// an operator before its operand
    Unary(Symbol, Box<ExprTree>),
    /// an operator between its operands
    Binary(Symbol, Box<ExprTree>, Box<ExprTree>),
}
