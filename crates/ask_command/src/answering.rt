//! What a service of one version answers a request.
ghost use Rattle.std.specs.Prelude.{◌≡◌, IfOk};
ghost use Rattle.ask_command.specs.Asked.{asked_text};
ghost use Rattle.ask_command.specs.steps.Answered.{IsAnswered, IsSeenBy, answered_text};
ghost use Rattle.meta_calls.specs.Versions.{IsHash, IsVersion};
ghost use Rattle.wire_model.specs.MetaStub.{meta_stub};

use aidl_base::{OutOfMemory, Profile, Text};
use aidl_schema::Schema;
use aidl_values::Value;
use marshal_plans::compile;
use meta_calls::MetaService;
use std::alloc::Global;
use stub_dispatch::{Answered, Service, Side, not_scripted};
use wire_model::law_stub;

/// What is asked of a version's service: its interface, by number, its version, and a transaction code.
#[derive(Clone, Copy)]
pub struct Request {
    pub interface: u32,
    pub version: u32,
    pub code: u32,
}

/// What the service of a version answers a request. It reads strictly, and its handler answers every call with `not scripted`.
pub fn answer_request(
    alloc: Global,
    schema: &Schema,
    request: Request,
    hash: Text,
    bytes: &[u8],
) -> Result<Answered, OutOfMemory>
    requires version { IsVersion request.version }
    requires hash { IsHash hash }
    // What the handler saw has the types of the method of the code.
    ensures seen { IfOk result (λ a.
        IsSeenBy schema.now.decls request.interface request.code a.saw) }
    ensures text { IfOk result (λ a. answered_text schema.now.decls request.interface request.code a
        ≡ asked_text schema.now.decls request.interface request.version hash
        request.code bytes.now) }
{
    law_stub(
        Profile::Strict,
        schema,
        request.interface,
        request.code,
        bytes,
    );
    transact(alloc, schema, request, hash, bytes)
}

// The same, as what is received.
#[tactic(auto, using(stub_dispatch::proofs::lemmas::Unscripted::unscripted_fits, crate::proofs::Unscripted::answers))]
fn transact(
    alloc: Global,
    schema: &Schema,
    request: Request,
    hash: Text,
    bytes: &[u8],
) -> Result<Answered, OutOfMemory>
    requires version { IsVersion request.version }
    requires hash { IsHash hash }
    ensures { IfOk result
        (IsAnswered schema.now.decls request.interface
        (meta_stub schema.now.decls request.interface request.version hash
        request.code bytes.now)) }
{
    let plans = compile(alloc, schema, &[])?;
    let side = Side::new(schema, &plans);
    let handler = |_method: u32, _args: &[Value]| not_scripted(alloc);
    let inner = Service::new(&side, Profile::Strict, request.interface, handler);
    let service = MetaService::new(schema, request.interface, inner, request.version, hash);
    service.transact(alloc, request.code, bytes)
}
