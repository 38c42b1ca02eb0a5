//! The parser: the tree of a file's tokens or a refusal, and the law that no tokens have two trees.
ghost use Rattle.std.specs.Prelude.{◌≡◌, IfOk, IfErr, Some, None, Err};
ghost use Rattle.aidl_base.specs.declared.limit.LimitName.{LimitName};
ghost use Rattle.aidl_syntax.specs.Trees.{File, file_of};
ghost use Rattle.aidl_syntax.specs.Productions.{IsFile, Tree};
ghost use Rattle.expr_parser.specs.declared.fault.ParseFault.TheVariants as fault;
ghost use Rattle.aidl_parser.specs.Limits.{passed};
ghost use Rattle.aidl_parser.specs.steps.Decls.{whole_of};
ghost use Rattle.aidl_parser.specs.Refusals.{IsRefusal};
ghost use Rattle.aidl_parser.specs.steps.Answers.{Answers};
ghost use Rattle.expr_parser.specs.Gives.{Gives};

use crate::file::whole;
use crate::limits::limit_of;
use aidl_base::Limit;
use aidl_syntax::{FileTree, Token};
use expr_parser::ParseFault;
use std::alloc::Global;

/// The tree that the tokens stand for by the productions. It refuses tokens that pass a limit, `nesting` before
/// `run-length`, and then those for which no tree stands. It may also answer that memory was wanted.
pub fn parse(alloc: Global, tokens: &[Token]) -> Result<FileTree, ParseFault>
    // What is answered stands for the tokens, which pass no limit; and such a tree is answered.
    ensures tree { IfOk result (λ tree. (passed tokens.now ≡ None) × Tree tokens.now tree) }
    ensures only_tree { (tree : File) → passed tokens.now ≡ None
        → IsFile tokens.now tree → Gives file_of result (Some tree) }

    // A refusal is true; and a limit that is passed, or that there is no tree, is answered.
    ensures refusal { IfErr result (IsRefusal tokens.now) }
    ensures only_limit { (name : LimitName) → passed tokens.now ≡ Some name
        → result ≡ Err (fault.Limit (record { which = name })) }
    ensures only_syntax { passed tokens.now ≡ None
        → ((tree : File) → IsFile tokens.now tree → ⊥) → Gives {Y = File} file_of result None }
{
    answer(alloc, tokens)
}

fn answer(alloc: Global, tokens: &[Token]) -> Result<FileTree, ParseFault>
    ensures { Answers (passed tokens.now) (whole_of tokens.now) result }
{
    match limit_of(tokens) {
        Some(which) => Err(ParseFault::Limit(Limit { which })),
        None => whole(alloc, tokens),
    }
}

/// A law of the definitions: no tokens have two trees.
pub fn law_one_tree(tokens: &[Token])
    ensures { (first second : File) → IsFile tokens.now first
        → IsFile tokens.now second → first ≡ second }
{}
