//! What the stack of the automaton holds: the parts of the productions, and the signs around them.

use crate::terminal::Terminal;

// The parts of the productions, each without what may be left out or repeated, so that it begins with a terminal.
#[derive(Clone, Copy)]
pub enum Part {
    // "package" dotted ";"
    Package,
    // "import" dotted ";"
    Import,
    // "." ident
    DotName,
    // dotted ["<" dotted ">"] ["[" "]"]
    Type,
    // "<" dotted ">"
    Element,
    // "[" "]"
    Array,
    // unary
    Operand,
    // an operator, and the operand behind it
    Operation,
    // expr: an operand, and the operations behind it
    Expression,
    // init = expr | "{" [expr {"," expr} [","]] "}"
    Initializer,
    // "=" init
    Initial,
    // "=" expr
    Value,
    // "=" number
    Id,
    // "@" ident ["(" [param {"," param}] ")"]
    Annotation,
    // "(" [param {"," param}] ")"
    Parameters,
    // param = [ident "="] init
    Parameter,
    // what follows the identifier that begins a parameter: "=" init, or the rest of an expression
    ParameterRest,
    // enumerator = ident ["=" expr]
    Enumerator,
    // parcelable | union | enum | interface
    Body,
    // member = field | constant | decl
    Member,
    // what follows its annotations
    MemberRest,
    // imember = method | constant | decl
    InterfaceMember,
    // what follows its annotations
    InterfaceMemberRest,
    // what follows its "oneway": an interface, or a method
    OnewayRest,
    // arg = annots ["in" | "out" | "inout"] annots type ident
    Argument,
    // what follows the first of its annotations
    ArgumentRest,
}

// What may come next: a terminal, or a part by a sign of the productions.
#[derive(Clone, Copy)]
pub enum Expected {
    Token(Terminal),
    // x
    Once(Part),
    // [x]
    Maybe(Part),
    // {x}
    Many(Part),
    // {"," x}
    Commas(Part),
    // [x {"," x}]
    MaybeListed(Part),
    // {"," x} [","]
    CommasTrailing(Part),
    // [x {"," x} [","]]
    MaybeTrailing(Part),
}
