//! Parsing enumerators.
ghost use Rattle.std.specs.Prelude.{◌≡◌, map, length, IfOk, ◌<◌};
ghost use Rattle.aidl_syntax.specs.Trees.{Enumerator, expr_of, enumerator_of};
ghost use Rattle.aidl_parser.specs.steps.Items as read;
ghost use Rattle.expr_parser.specs.Gives.{Gives};

use crate::lists::{Part, maybe_behind};
use crate::types::ident;
use aidl_syntax::{EnumeratorTree, Symbol, Token};
use expr_parser::{ParseFault, first};
use std::alloc::Global;

// ident ["=" expr]
impl Part for EnumeratorTree {
    ghost Seen = { Enumerator };

    ghost seen = { enumerator_of };

    ghost read = { read.enumerator_at };

    #[tactic(auto, unfolding(crate::specs::steps::Items::enumerator_at, crate::specs::steps::Items::given_at))]
    fn part<'a>(
        alloc: Global,
        fuel: usize,
        tokens: &'a [Token],
    ) -> Result<(Self, &'a [Token]), ParseFault> {
        let (name, rest) = ident(alloc, tokens)?;
        let (value, rest) = maybe_behind(alloc, fuel, Symbol::Equal, rest)?;
        Ok((
            EnumeratorTree {
                offset: first(tokens),
                name,
                value,
            },
            rest,
        ))
    }
}
