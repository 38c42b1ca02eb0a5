//! What a handler answers for which no answer is written down.
ghost use Rattle.std.specs.Prelude.{◌≡◌, IfOk};
ghost use Rattle.stub_dispatch.specs.Unscripted.{not_scripted};
ghost use Rattle.wire_model.specs.Calls.{answer_of};

use crate::status::ILLEGAL_STATE;
use aidl_base::{OutOfMemory, Text};
use aidl_values::Answer;
use std::alloc::Global;

/// The answer of a method for which none is written down: the exception EX_ILLEGAL_STATE, `not scripted` (own). It fits every method.
#[tactic(auto, using(crate::proofs::lemmas::Unscripted::message_chars))]
pub fn not_scripted(alloc: Global) -> Result<Answer, OutOfMemory>
    ensures { IfOk result (λ a. answer_of a ≡ not_scripted) }
{
    let message = Text::from_str(alloc, "not scripted")?;
    Ok(Answer::Exception {
        code: ILLEGAL_STATE,
        message,
        error: 0,
    })
}
