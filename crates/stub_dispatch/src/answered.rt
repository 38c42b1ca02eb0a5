//! What a service answers a request.
ghost use Rattle.std.specs.Prelude.{IfOk};
ghost use Rattle.aidl_values.specs.View.{views};
ghost use Rattle.stub_dispatch.specs.Answers.{AnswersCall};
ghost use Rattle.stub_dispatch.specs.Handlers.{AnswersFit, MayBeCalled};
ghost use Rattle.wire_model.specs.Typed.{AreArguments};

use crate::callee::Callee;
use crate::sending::answer_reply;
use aidl_base::{OutOfMemory, Row};
use aidl_values::{Answer, Value};
use std::alloc::Global;

/// What a service answers a request: the transport status, 0 where the request isn't refused; what the handler saw, where it was
/// called; and the bytes of the reply, which a oneway method and a refusal don't have.
#[derive(Drop)]
pub struct Answered {
    pub transport: i32,
    pub saw: Option<Row<Value>>,
    pub reply: Option<Row<u8>>,
}

/// What is answered by a call of the handler.
pub fn answer_call<F: Fn(u32, &[Value]) -> Result<Answer, OutOfMemory>>(
    alloc: Global,
    callee: &Callee<'_>,
    handler: &F,
    saw: Row<Value>,
) -> Result<Answered, OutOfMemory>
    requires typed { AreArguments callee.now (views saw) }
    requires callable { MayBeCalled callee.now.declarations callee.now.interface
        (F.pre handler.now) }
    requires fits { AnswersFit callee.now.declarations callee.now.interface (F.post handler.now) }
    ensures { IfOk result (λ answered. AnswersCall (F.post handler.now) callee.now answered saw) }
{
    let method = callee.method();
    let answer = handler(method, saw.as_slice())?;
    let reply = answer_reply(alloc, callee, &answer)?;
    Ok(Answered {
        transport: 0,
        saw: Some(saw),
        reply,
    })
}
