//! The backing of an enum, as its annotation `Backing` writes it, and the values that its enumerators take.
ghost use Rattle.std.specs.Prelude.{◌≡◌, codes, map};
ghost use Rattle.std.specs.List.{find};
ghost use Rattle.aidl_syntax.specs.Trees.{annot_of, decl_of, expr_of, init_of, map_option, param_of};
ghost use Rattle.type_shapes.specs.Backing as meant;

use aidl_base::Text;
use aidl_syntax::{
    AnnotTree, DeclTree, ExprKind, ExprTree, InitTree, NameTree, ParamTree, TokenKind,
};
use const_values::Wanted;

/// The value that is wanted of an enum's enumerators: its backing, as constants see it.
pub fn backing_of(tree: &DeclTree) -> Wanted
    ensures { result ≡ meant.backing_of (decl_of tree.now) }
{
    match backing_annot(tree.annots.as_slice()) {
        Some(annot) => backing_of_annot(annot),
        None => Wanted::Byte,
    }
}

/// The first annotation `Backing`.
pub fn backing_annot(annots: &[AnnotTree]) -> Option<&AnnotTree>
    ensures { map_option (λ a. annot_of a.now) result
        ≡ find meant.is_backing (map annot_of annots.now) }
{
    for annot in annots {
        if annot.name.name.0.as_str() == "Backing" {
            return Some(annot);
        }
    }
    None
}

fn backing_of_annot(annot: &AnnotTree) -> Wanted
    ensures { result ≡ meant.backing_of_annot (annot_of annot.now) }
{
    match type_param(annot.params.as_slice()) {
        Some(param) => backing_of_init(&param.value),
        None => Wanted::Byte,
    }
}

/// The first parameter `type`.
pub fn type_param(params: &[ParamTree]) -> Option<&ParamTree>
    ensures { map_option (λ p. param_of p.now) result
        ≡ find meant.is_type (map param_of params.now) }
{
    for param in params {
        if is_type(&param.name) {
            return Some(param);
        }
    }
    None
}

/// Whether a parameter is called `type`, by its name.
pub fn is_type(name: &Option<NameTree>) -> bool
    ensures { result ≡ meant.is_type_name name.now }
{
    match name {
        Some(name) => name.name.0.as_str() == "type",
        None => false,
    }
}

fn backing_of_init(init: &InitTree) -> Wanted
    ensures { result ≡ meant.backing_of_init (init_of init.now) }
{
    match init {
        InitTree::Single(tree) => backing_of_expr(tree),
        InitTree::Braces { .. } => Wanted::Byte,
    }
}

fn backing_of_expr(tree: &ExprTree) -> Wanted
    ensures { result ≡ meant.backing_of_expr (expr_of tree.now) }
{
    match &tree.kind {
        ExprKind::Literal(token) => backing_of_token(&token.kind),
        ExprKind::Name(_) => Wanted::Byte,
        ExprKind::Group(_) => Wanted::Byte,
        ExprKind::Unary(_, _) => Wanted::Byte,
        ExprKind::Binary(_, _, _) => Wanted::Byte,
    }
}

fn backing_of_token(kind: &TokenKind) -> Wanted
    ensures { result ≡ meant.backing_of_token kind.now }
{
    match kind {
        TokenKind::Str(text) => backing_of_text(text),
        _ => Wanted::Byte,
    }
}

fn backing_of_text(text: &Text) -> Wanted
    ensures { result ≡ meant.backing_of_text text.now }
{
    match text.as_str() {
        "int" => Wanted::Int,
        "long" => Wanted::Long,
        _ => Wanted::Byte,
    }
}
