//! Trees as text. Each part stands in parentheses behind the offset of its first token; each name, type and literal behind its offset
//! and a colon. Where such a thing is a part of its own, its offset as a part stands before it with a `!`, if the two differ.

use crate::names::push_name;
use aidl_syntax::{
    AnnotTree, ArgTree, BodyTree, ConstantTree, DeclTree, DottedTree, EnumeratorTree, ExprKind,
    ExprTree, FieldTree, FileTree, InitTree, MemberTree, MethodTree, NameTree, ParamTree, Reserved,
    Symbol, Token, TokenKind, TypeTree, WayTree,
};
use growing::GrowingText;

/// Adds a file.
pub fn push_file(file: &FileTree, text: &mut GrowingText) {
    begin(file.offset, "file", text);
    if let Some(package) = &file.package {
        text.push_str(" package ");
        push_dotted(package, text);
    }
    for import in file.imports.as_slice() {
        text.push_str(" import ");
        push_dotted(import, text);
    }
    text.push_str(" ");
    push_decl(&file.decl, text);
    text.push_str(")");
}

// Begins a part, with its first word.
fn begin(offset: u32, word: &str, text: &mut GrowingText) {
    write!(text, "{offset}({word}");
}

fn push_dotted(dotted: &DottedTree, text: &mut GrowingText) {
    write!(text, "{}:", dotted.offset);
    push_name(&dotted.name, text);
}

#[cycle(decl)]
fn push_decl(decl: &DeclTree, text: &mut GrowingText) {
    begin(decl.offset, "", text);
    push_annots(decl.annots.as_slice(), text);
    text.push_str(kind_of(&decl.body));
    text.push_str(" ");
    push_label(&decl.name, text);
    match &decl.body {
        BodyTree::Parcelable(members) => push_members(members.as_slice(), text),
        BodyTree::Union(members) => push_members(members.as_slice(), text),
        BodyTree::Enum(enumerators) => push_enumerators(enumerators.as_slice(), text),
        BodyTree::Interface { members, .. } => push_members(members.as_slice(), text),
    }
    text.push_str(")");
}

#[cycle(decl)]
fn push_members(members: &[MemberTree], text: &mut GrowingText) {
    for member in members {
        text.push_str(" ");
        match member {
            MemberTree::Field(field) => push_field(field, text),
            MemberTree::Constant(constant) => push_constant(constant, text),
            MemberTree::Method(method) => push_method(method, text),
            MemberTree::Nested(decl) => push_decl(decl, text),
        }
    }
}

fn push_enumerators(enumerators: &[EnumeratorTree], text: &mut GrowingText) {
    for enumerator in enumerators {
        text.push_str(" ");
        push_offset(enumerator.offset, enumerator.name.offset, text);
        push_label(&enumerator.name, text);
        if let Some(value) = &enumerator.value {
            text.push_str(" = ");
            push_expr(value, text);
        }
    }
}

fn kind_of(body: &BodyTree) -> &'static str {
    match body {
        BodyTree::Parcelable(_) => "parcelable",
        BodyTree::Union(_) => "union",
        BodyTree::Enum(_) => "enum",
        BodyTree::Interface { oneway: false, .. } => "interface",
        BodyTree::Interface { oneway: true, .. } => "oneway interface",
    }
}

// Adds the offset of a part, if that of the next one in it differs.
fn push_offset(offset: u32, next: u32, text: &mut GrowingText) {
    if offset != next {
        write!(text, "{offset}!");
    }
}

fn push_label(label: &NameTree, text: &mut GrowingText) {
    write!(text, "{}:{}", label.offset, label.name.0.as_str());
}

fn push_field(field: &FieldTree, text: &mut GrowingText) {
    begin(field.offset, "", text);
    push_annots(field.annots.as_slice(), text);
    push_typed(&field.ty, &field.name, text);
    if let Some(initial) = &field.initial {
        text.push_str(" = ");
        push_init(initial, text);
    }
    text.push_str(")");
}

fn push_constant(constant: &ConstantTree, text: &mut GrowingText) {
    begin(constant.offset, "", text);
    push_annots(constant.annots.as_slice(), text);
    text.push_str("const ");
    push_typed(&constant.ty, &constant.name, text);
    text.push_str(" = ");
    push_expr(&constant.value, text);
    text.push_str(")");
}

fn push_method(method: &MethodTree, text: &mut GrowingText) {
    begin(method.offset, "", text);
    push_annots(method.annots.as_slice(), text);
    if method.oneway {
        text.push_str("oneway ");
    }
    match &method.result {
        Some(ty) => push_type(ty, text),
        None => text.push_str("void"),
    }
    text.push_str(" ");
    push_label(&method.name, text);
    for arg in method.args.as_slice() {
        text.push_str(" ");
        push_arg(arg, text);
    }
    if let Some(id) = &method.id {
        text.push_str(" = ");
        push_token(id, text);
    }
    text.push_str(")");
}

fn push_arg(arg: &ArgTree, text: &mut GrowingText) {
    begin(arg.offset, "", text);
    push_annots(arg.annots.as_slice(), text);
    text.push_str(match arg.way {
        None => "",
        Some(WayTree::In) => "in ",
        Some(WayTree::Out) => "out ",
        Some(WayTree::InOut) => "inout ",
    });
    push_typed(&arg.ty, &arg.name, text);
    text.push_str(")");
}

fn push_typed(ty: &TypeTree, label: &NameTree, text: &mut GrowingText) {
    push_type(ty, text);
    text.push_str(" ");
    push_label(label, text);
}

fn push_type(ty: &TypeTree, text: &mut GrowingText) {
    push_offset(ty.offset, ty.name.offset, text);
    push_dotted(&ty.name, text);
    if let Some(element) = &ty.element {
        text.push_str("<");
        push_dotted(element, text);
        text.push_str(">");
    }
    if ty.array {
        text.push_str("[]");
    }
}

fn push_annots(annots: &[AnnotTree], text: &mut GrowingText) {
    for annot in annots {
        write!(text, "{}@", annot.offset);
        push_label(&annot.name, text);
        for param in annot.params.as_slice() {
            text.push_str(" ");
            push_param(param, text);
        }
        text.push_str(" ");
    }
}

fn push_param(param: &ParamTree, text: &mut GrowingText) {
    match &param.name {
        Some(label) => {
            push_offset(param.offset, label.offset, text);
            push_label(label, text);
            text.push_str("=");
        }
        None => push_offset(param.offset, offset_of(&param.value), text),
    }
    push_init(&param.value, text);
}

fn offset_of(init: &InitTree) -> u32 {
    match init {
        InitTree::Single(expr) => expr.offset,
        InitTree::Braces { offset, .. } => *offset,
    }
}

fn push_init(init: &InitTree, text: &mut GrowingText) {
    match init {
        InitTree::Single(expr) => push_expr(expr, text),
        InitTree::Braces { offset, items } => {
            begin(*offset, "{}", text);
            for item in items.as_slice() {
                text.push_str(" ");
                push_expr(item, text);
            }
            text.push_str(")");
        }
    }
}

fn push_expr(expr: &ExprTree, text: &mut GrowingText) {
    match &expr.kind {
        ExprKind::Literal(token) => {
            push_offset(expr.offset, token.offset, text);
            push_token(token, text);
        }
        ExprKind::Name(name) => {
            push_offset(expr.offset, name.offset, text);
            push_dotted(name, text);
        }
        ExprKind::Group(inner) => {
            begin(expr.offset, "() ", text);
            push_expr(inner, text);
            text.push_str(")");
        }
        ExprKind::Unary(symbol, operand) => {
            begin(expr.offset, spelled(*symbol), text);
            text.push_str(" ");
            push_expr(operand, text);
            text.push_str(")");
        }
        ExprKind::Binary(symbol, first, second) => {
            begin(expr.offset, spelled(*symbol), text);
            text.push_str(" ");
            push_expr(first, text);
            text.push_str(" ");
            push_expr(second, text);
            text.push_str(")");
        }
    }
}

fn push_token(token: &Token, text: &mut GrowingText) {
    write!(text, "{}:", token.offset);
    match &token.kind {
        TokenKind::Name(word) => text.push_str(word.as_str()),
        TokenKind::Word(Reserved::True) => text.push_str("true"),
        TokenKind::Word(Reserved::False) => text.push_str("false"),
        TokenKind::Word(_) => text.push_str("another word"),
        TokenKind::Number {
            bits,
            hexadecimal,
            long,
        } => push_number(*bits, *hexadecimal, *long, text),
        TokenKind::Character(code) => { write!(text, "'{}'", char::from_u32(*code).unwrap_or('?')) }
        TokenKind::Str(words) => write!(text, "\"{}\"", words.as_str()),
        TokenKind::Mark(symbol) => text.push_str(spelled(*symbol)),
    }
}

fn push_number(bits: u64, hexadecimal: bool, long: bool, text: &mut GrowingText) {
    if hexadecimal {
        write!(text, "{bits:#x}");
    } else {
        write!(text, "{bits}");
    }
    if long {
        text.push_str("L");
    }
}

fn spelled(symbol: Symbol) -> &'static str {
    match symbol {
        Symbol::Plus => "+",
        Symbol::Minus => "-",
        Symbol::Star => "*",
        Symbol::Slash => "/",
        Symbol::Percent => "%",
        Symbol::And => "&",
        Symbol::Or => "|",
        Symbol::Caret => "^",
        Symbol::Tilde => "~",
        Symbol::Bang => "!",
        Symbol::ShiftLeft => "<<",
        Symbol::ShiftRight => ">>",
        Symbol::Less => "<",
        Symbol::Greater => ">",
        Symbol::LessEqual => "<=",
        Symbol::GreaterEqual => ">=",
        Symbol::EqualEqual => "==",
        Symbol::NotEqual => "!=",
        Symbol::AndAnd => "&&",
        Symbol::OrOr => "||",
        _ => "no operator",
    }
}
