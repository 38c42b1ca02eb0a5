//! Laws of the definitions of tokens and trees: places ascend inside the bytes, and each part is well formed.
ghost use Rattle.std.specs.Prelude.{◌≡◌, ◌<◌, ℕ, true, List, length, map};
ghost use Rattle.std.specs.List.{All};
ghost use Rattle.std.specs.List.Sorted.{IsStrictlyIncreasing};
ghost use Rattle.aidl_base.specs.Identifiers.{is_identifier};
ghost use Rattle.aidl_syntax.specs.Parses.{Holds, FileParse};
ghost use Rattle.aidl_syntax.specs.Tokens.{Tokens};
ghost use Rattle.aidl_syntax.specs.Trees.{file_of};
ghost use Rattle.aidl_syntax.specs.Walks.{places_of, names_of, dotted_of, literals_of};

use crate::token::Token;
use crate::tree::FileTree;

/// A law of the definitions: the tokens of any bytes ascend, lie inside the bytes, and hold what their kind may hold.
pub fn law_tokens(tokens: &[Token])
    ensures ascend { (bytes : List ℕ) → Tokens bytes tokens.now
        → IsStrictlyIncreasing (map (λ t. t.offset) tokens.now) }
    ensures inside { (bytes : List ℕ) → Tokens bytes tokens.now
        → All (λ t. t.offset < length bytes) tokens.now }
    ensures hold { (bytes : List ℕ) → Tokens bytes tokens.now → All (λ t. Holds t.kind) tokens.now }
{}

/// A law of the definitions: in the tree of any bytes the places ascend in the order of a walk through the tree, so that
/// no two are the same, and lie inside the bytes; each name and each part of a dotted name is an identifier; each dotted
/// name has a part; and each literal holds what its kind may hold.
pub fn law_tree(tree: &FileTree)
    ensures ascend { (bytes : List ℕ) → FileParse bytes tree.now
        → IsStrictlyIncreasing (places_of (file_of tree.now)) }
    ensures inside { (bytes : List ℕ) → FileParse bytes tree.now
        → All (λ o. o < length bytes) (places_of (file_of tree.now)) }
    ensures names { (bytes : List ℕ) → FileParse bytes tree.now
        → All (λ i. is_identifier i.0 ≡ true) (names_of (file_of tree.now)) }
    ensures parts { (bytes : List ℕ) → FileParse bytes tree.now
        → All (λ d. 0 < length d.name.0) (dotted_of (file_of tree.now)) }
    ensures literals { (bytes : List ℕ) → FileParse bytes tree.now
        → All (λ t. Holds t.kind) (literals_of (file_of tree.now)) }
{}
