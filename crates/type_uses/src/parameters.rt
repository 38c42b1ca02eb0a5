//! The parameters of annotations: `heap` with a truth value, and `type` with a string.
ghost use Rattle.std.specs.Prelude.{◌≡◌, map};
ghost use Rattle.std.specs.List.{list_any};
ghost use Rattle.aidl_syntax.specs.Trees.{expr_of, init_of, map_option, param_of};
ghost use Rattle.type_uses.specs.Parameters as meant;

use aidl_base::Reserved;
use aidl_syntax::{ExprKind, ExprTree, InitTree, NameTree, ParamTree, TokenKind};
use type_shapes::is_type;

// The single literal that a value is.
fn literal_of(init: &InitTree) -> Option<&TokenKind>
    ensures { map_option (λ k. k.now) result ≡ meant.literal_of (init_of init.now) }
{
    match init {
        InitTree::Single(tree) => literal_in(tree),
        InitTree::Braces { .. } => None,
    }
}

fn literal_in(tree: &ExprTree) -> Option<&TokenKind>
    ensures { map_option (λ k. k.now) result ≡ meant.literal_in (expr_of tree.now) }
{
    match &tree.kind {
        ExprKind::Literal(token) => Some(&token.kind),
        ExprKind::Name(_) => None,
        ExprKind::Group(_) => None,
        ExprKind::Unary(_, _) => None,
        ExprKind::Binary(_, _, _) => None,
    }
}

fn is_true_word(kind: Option<&TokenKind>) -> bool
    ensures { result ≡ meant.is_true_word (map_option (λ k. k.now) kind.entry) }
{
    match kind {
        Some(TokenKind::Word(Reserved::True)) => true,
        _ => false,
    }
}

fn is_truth_word(kind: Option<&TokenKind>) -> bool
    ensures { result ≡ meant.is_truth_word (map_option (λ k. k.now) kind.entry) }
{
    match kind {
        Some(TokenKind::Word(Reserved::True)) => true,
        Some(TokenKind::Word(Reserved::False)) => true,
        _ => false,
    }
}

fn is_string(kind: Option<&TokenKind>) -> bool
    ensures { result ≡ meant.is_string (map_option (λ k. k.now) kind.entry) }
{
    match kind {
        Some(TokenKind::Str(_)) => true,
        _ => false,
    }
}

/// Whether a value is one of the strings "byte", "int" and "long".
pub fn is_backing_word(init: &InitTree) -> bool
    ensures { result ≡ meant.is_backing_word (meant.literal_of (init_of init.now)) }
{
    match literal_of(init) {
        Some(TokenKind::Str(text)) => is_backing_text(text.as_str()),
        _ => false,
    }
}

fn is_backing_text(text: &str) -> bool
    ensures { result ≡ meant.is_backing_text text.now }
{
    text == "byte" || text == "int" || text == "long"
}

fn is_heap_name(name: &Option<NameTree>) -> bool
    ensures { result ≡ meant.is_heap_name name.now }
{
    match name {
        Some(name) => name.name.0.as_str() == "heap",
        None => false,
    }
}

/// Whether one of the parameters is `heap=true`.
pub fn has_heap_true(params: &[ParamTree]) -> bool
    ensures { result ≡ list_any meant.is_heap_true (map param_of params.now) }
{
    for param in params {
        if is_heap_true(param) {
            return true;
        }
    }
    false
}

fn is_heap_true(param: &ParamTree) -> bool
    ensures { result ≡ meant.is_heap_true (param_of param.now) }
{
    is_heap_name(&param.name) && is_true_word(literal_of(&param.value))
}

/// Whether a parameter is `heap=true` or `heap=false`.
pub fn is_heap(param: &ParamTree) -> bool
    ensures { result ≡ meant.is_heap (param_of param.now) }
{
    is_heap_name(&param.name) && is_truth_word(literal_of(&param.value))
}

/// Whether a parameter is `type` with a string.
pub fn is_type_string(param: &ParamTree) -> bool
    ensures { result ≡ meant.is_type_string (param_of param.now) }
{
    is_type(&param.name) && is_string(literal_of(&param.value))
}
