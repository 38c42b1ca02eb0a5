//! Whole files: the productions of the package, the imports and the one declaration.
ghost use Rattle.std.specs.Prelude.{◌≡◌, ◌^◌, ◌<◌, length, map, [], Some, IfOk, ◌≤◌};
ghost use Rattle.aidl_base.specs.declared.reserved.Reserved.TheVariants as word;
ghost use Rattle.aidl_syntax.specs.Trees.{decl_of, file_of};
ghost use Rattle.aidl_parser.specs.steps.Parts as part;
ghost use Rattle.aidl_parser.specs.steps.Decls as read;
ghost use Rattle.expr_parser.specs.Gives.{Gives};

use crate::annotations::annots;
use crate::decls::decl;
use crate::lists::{Repeat, many, statement};
use crate::parts::begins_word;
use aidl_base::Row;
use aidl_syntax::{DottedTree, FileTree, Reserved, Token};
use expr_parser::{ParseFault, first};
use std::alloc::Global;

// The file that all of the tokens are. Each level and each round takes a token at least, so that the fuel, one more than
// the tokens, suffices for all of them.
#[tactic(auto, unfolding(crate::specs::steps::Decls::whole_of), using(crate::proofs::Files::one_more))]
pub fn whole(alloc: Global, tokens: &[Token]) -> Result<FileTree, ParseFault>
    ensures { Gives file_of result (read.whole_of tokens.now) }
{
    let (tree, rest) = file(alloc, tokens.len() + 1, tokens)?;
    match rest {
        [] => Ok(tree),
        _ => Err(ParseFault::Syntax),
    }
}

// ["package" dotted ";"] {"import" dotted ";"} decl
#[tactic(auto, unfolding(crate::specs::steps::Decls::file_at, crate::specs::steps::Decls::top_at))]
fn file<'a>(
    alloc: Global,
    fuel: usize,
    tokens: &'a [Token],
) -> Result<(FileTree, &'a [Token]), ParseFault>
    requires { length tokens.now < fuel }
    ensures { Gives (λ x. (file_of x.0, x.1.now)) result (read.file_at fuel tokens.entry.now) }
{
    let (package, rest) = maybe_package(alloc, fuel, tokens)?;
    let (imports, rest) = imports(alloc, fuel, rest)?;
    let (annots, after) = annots(alloc, fuel, rest)?;
    let (decl, rest) = decl(alloc, fuel, first(rest), annots, after)?;
    Ok((
        FileTree {
            offset: first(tokens),
            package,
            imports,
            decl,
        },
        rest,
    ))
}

// ["package" dotted ";"]
#[tactic(auto, unfolding(crate::specs::steps::Decls::named_at))]
fn maybe_package<'a>(
    alloc: Global,
    fuel: usize,
    tokens: &'a [Token],
) -> Result<(Option<DottedTree>, &'a [Token]), ParseFault>
    requires { length tokens.now < fuel }
    ensures gives { Gives (λ x. (x.0, x.1.now)) result
        (part.maybe (part.begins_word word.Package) (read.named_at word.Package) tokens.entry.now) }
    ensures left { IfOk result (λ x. length x.1.now ≤ length tokens.entry.now) }
{
    if begins_word(Reserved::Package, tokens) {
        let (name, rest) = statement(alloc, fuel, Reserved::Package, tokens)?;
        Ok((Some(name), rest))
    } else {
        Ok((None, tokens))
    }
}

// {"import" dotted ";"}
#[tactic(auto, unfolding(crate::specs::steps::Decls::imports_at, crate::specs::steps::Decls::named_at), using(crate::proofs::lemmas::Rounds::with_none))]
fn imports<'a>(
    alloc: Global,
    fuel: usize,
    tokens: &'a [Token],
) -> Result<(Row<DottedTree>, &'a [Token]), ParseFault>
    requires { length tokens.now < fuel }
    ensures gives { Gives (λ x. (x.0, x.1.now)) result (read.imports_at fuel tokens.entry.now) }
    ensures left { IfOk result (λ x. length x.1.now ≤ length tokens.entry.now) }
{
    many(alloc, fuel, Repeat::Imports, Row::new(alloc), tokens)
}
