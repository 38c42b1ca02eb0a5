//! A service: an interface of a schema, with the handler of its methods.
ghost use Rattle.std.specs.Prelude.{◌≡◌, IfOk};
ghost use Rattle.stub_dispatch.specs.Answers.{Answers};
ghost use Rattle.stub_dispatch.specs.Handlers.{AnswersFit, MayBeCalled};
ghost use Rattle.wire_model.specs.Receiver.{stub};

use crate::answered::{Answered, answer_call};
use crate::callee::Callee;
use crate::receiving::{Receipt, receive};
use crate::sending::unread_reply;
use crate::side::Side;
use aidl_base::{OutOfMemory, Profile};
use aidl_values::{Answer, Value};
use std::alloc::Global;
use std::marker::Model;
use wire_model::law_stub;

/// An interface of a side, with the handler of its methods. Contracts see it as the schema's declarations, the profile by
/// which it reads, the number of the interface, and the handler.
#[derive(Drop)]
pub struct Service<'a, 'b, F> {
    side: &'a Side<'b>,
    profile: Profile,
    interface: u32,
    handler: F,
}

impl<'a, 'b, F> Model for Service<'a, 'b, F> {
    ghost use Rattle.aidl_schema.specs.contracts.schema.Decl as decl;
    ghost use Rattle.stub_dispatch.specs.Services.{Seen, seen_code};

    ghost Value = { Seen F };

    ghost coded = { seen_code decl.the_row.coded F.code };

    ghost view = { λ s. record {
      decls = s.side.now;
      profile = s.profile;
      interface = s.interface;
      handler = s.handler;
    } };
}

impl<'a, 'b, F> Service<'a, 'b, F> {
    /// A service of an interface, by its number, that reads by a profile. What it needs of its handler is said where it is called, at
    /// `transact`. A number of no interface has no methods, so each request is refused.
    pub fn new(
        side: &'a Side<'b>,
        profile: Profile,
        interface: u32,
        handler: F,
    ) -> Service<'a, 'b, F>
        ensures { result ≡ record {
          decls = side.now;
          profile = profile;
          interface = interface;
          handler = handler;
        } }
    {
        Service {
            side,
            profile,
            interface,
            handler,
        }
    }
}

impl<'a, 'b, F: Fn(u32, &[Value]) -> Result<Answer, OutOfMemory>> Service<'a, 'b, F> {
    /// What the service answers a request with a code. The handler may be called on every method of the interface with well-typed
    /// arguments, and each of its Ok answers fits. Where the stub doesn't call it, `saw` is None.
    pub fn transact(&self, alloc: Global, code: u32, bytes: &[u8]) -> Result<Answered, OutOfMemory>
        requires callable { MayBeCalled self.now.decls self.now.interface (F.pre self.now.handler) }
        requires fits { AnswersFit self.now.decls self.now.interface (F.post self.now.handler) }
        // A refusal has its status alone, bytes left over have their exception, and a call has the reply of an answer of the handler.
        ensures { IfOk result (λ answered. Answers
            (F.post self.now.handler) self.now.decls self.now.interface answered
            (stub self.now.profile self.now.decls self.now.interface code bytes.now)) }
    {
        let schema = self.side.schema();
        law_stub(self.profile, schema, self.interface, code, bytes);
        match receive(alloc, self.profile, self.side, self.interface, code, bytes)? {
            Receipt::Refused { status } => Ok(Answered {
                transport: status,
                saw: None,
                reply: None,
            }),
            Receipt::Left { method } => Ok(Answered {
                transport: 0,
                saw: None,
                reply: unread_reply(alloc, schema, self.interface, method)?,
            }),
            Receipt::Called { method, saw } => {
                let callee = Callee::new(self.side, self.interface, method);
                answer_call(alloc, &callee, &self.handler, saw)
            }
        }
    }
}
