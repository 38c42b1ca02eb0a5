//! A service of an interface that also answers for the interface's version and hash.
ghost use Rattle.std.specs.Prelude.{◌≡◌, ◌≤◌, ◌++◌, ℕ, List, length, option_map, pos, IfOk, None, Some};
ghost use Rattle.aidl_base.specs.Words.{units, word};
ghost use Rattle.aidl_base.specs.declared.profile.Profile.TheVariants.{Strict};
ghost use Rattle.meta_calls.specs.MetaAnswers.{MetaAnswers};
ghost use Rattle.meta_calls.specs.Versions.{IsHash, IsVersion};
ghost use Rattle.meta_calls.specs.steps.Told.{told_answer};
ghost use Rattle.stub_dispatch.specs.Handlers.{AnswersFit, MayBeCalled};
ghost use Rattle.wire_model.specs.Calls.{descriptor};
ghost use Rattle.wire_model.specs.MetaStub.{meta_stub, told_of};
ghost use Rattle.wire_model.specs.Receiver.{token_at};
ghost use Rattle.wire_model.specs.Spell.{spell_text};

use aidl_base::{OutOfMemory, Profile, Row, Text};
use aidl_schema::Schema;
use aidl_values::{Answer, Value};
use parcel_words::{Wire, WordWriter};
use std::alloc::Global;
use std::marker::Model;
use stub_dispatch::{Answered, BAD_TYPE, Service, after_token, descriptor_of, unread_bytes};

/// The transaction code of the version: that of a method with the id 16777214, which AOSP's compiler gives `getInterfaceVersion`.
pub const VERSION_CODE: u32 = 16_777_215;

/// The transaction code of the hash: that of a method with the id 16777213, which AOSP's compiler gives `getInterfaceHash`.
pub const HASH_CODE: u32 = 16_777_214;

/// A service, with the version and the hash of its interface. Contracts see it as the service inside, the version, and the hash.
#[derive(Drop)]
pub struct MetaService<'a, 'b, F> {
    schema: &'a Schema,
    interface: u32,
    inner: Service<'a, 'b, F>,
    version: u32,
    hash: Text,
}

impl<'a, 'b, F> Model for MetaService<'a, 'b, F> {
    ghost use Rattle.std.specs.Prelude.{◌≡◌};
    ghost use Rattle.aidl_base.specs.declared.profile.Profile.TheVariants.{Strict};
    ghost use Rattle.aidl_schema.specs.contracts.schema.Decl as decl;
    ghost use Rattle.stub_dispatch.specs.Services.{seen_code as service_code};
    ghost use Rattle.meta_calls.specs.Seen.{Seen, seen_code};
    ghost use Rattle.meta_calls.specs.Versions.{IsHash, IsVersion};

    ghost Value = { Seen F };

    ghost coded = { seen_code (service_code decl.the_row.coded F.code) };

    ghost view = { λ s. record { service = s.inner; version = s.version; hash = s.hash } };

    ghost invariant = { λ s. record {
      schema : s.inner.decls ≡ s.schema.now.decls;
      interface : s.inner.interface ≡ s.interface;
      strict : s.inner.profile ≡ Strict;
      numbered : IsVersion s.version;
      hashed : IsHash s.hash;
    } };
}

impl<'a, 'b, F> MetaService<'a, 'b, F> {
    /// A service over one of an interface of a schema that reads strictly, with the version of the interface, from 1 to 9,999, and its hash
    /// of 40 hexadecimal digits.
    pub fn new(
        schema: &'a Schema,
        interface: u32,
        inner: Service<'a, 'b, F>,
        version: u32,
        hash: Text,
    ) -> MetaService<'a, 'b, F>
        requires schema { inner.decls ≡ schema.now.decls }
        requires interface { inner.interface ≡ interface }
        requires strict { inner.profile ≡ Strict }
        requires version { IsVersion version }
        requires hash { IsHash hash }
        ensures { result ≡ record { service = inner.entry; version = version; hash = hash } }
    {
        MetaService {
            schema,
            interface,
            inner,
            version,
            hash,
        }
    }
}

impl<'a, 'b, F: Fn(u32, &[Value]) -> Result<Answer, OutOfMemory>> MetaService<'a, 'b, F> {
    /// What the service answers a request with a code. The two codes it answers itself, from the version and the hash, after a look at the
    /// token and at the bytes left over (own); its handler isn't called. Every other code is asked of the inner service, whose handler may be
    /// called on every method of the interface with well-typed arguments, each of its Ok answers fitting.
    pub fn transact(&self, alloc: Global, code: u32, bytes: &[u8]) -> Result<Answered, OutOfMemory>
        requires callable { MayBeCalled self.now.service.decls self.now.service.interface
            (F.pre self.now.service.handler) }
        requires fits { AnswersFit self.now.service.decls self.now.service.interface
            (F.post self.now.service.handler) }
        ensures { IfOk result (λ answered. MetaAnswers (F.post self.now.service.handler)
            self.now.service.decls self.now.service.interface answered
            (meta_stub self.now.service.decls
            self.now.service.interface self.now.version self.now.hash code bytes.now)) }
    {
        match told_reply(alloc, self.version, &self.hash, code)? {
            Some(told) => answer_told(alloc, self.schema, self.interface, told, bytes),
            None => self.inner.transact(alloc, code, bytes),
        }
    }
}

// The reply that tells what a code asks for; None where the code isn't one of the two.
fn told_reply(
    alloc: Global,
    version: u32,
    hash: &Text,
    code: u32,
) -> Result<Option<Vec<u8>>, OutOfMemory>
    requires version { IsVersion version }
    requires hash { IsHash hash.now }
    ensures { IfOk result (λ told. option_map (λ t. t.items) told
        ≡ option_map (λ item. word (pos 0) ++ item) (told_of version hash.now code)) }
{
    if code == VERSION_CODE {
        return Ok(Some(version_reply(alloc, version)?));
    }
    if code == HASH_CODE {
        return Ok(Some(hash_reply(alloc, hash)?));
    }
    Ok(None)
}

fn version_reply(alloc: Global, version: u32) -> Result<Vec<u8>, OutOfMemory>
    requires { IsVersion version }
    ensures { IfOk result (λ reply. reply.items ≡ word (pos 0) ++ word (pos version)) }
{
    let mut to = WordWriter::with_room(alloc, 8)?;
    to.word(0);
    to.word(version as i32);
    Ok(to.finish())
}

#[tactic(auto, using(crate::proofs::Lengths::hash_length, crate::proofs::Lengths::hash_units))]
fn hash_reply(alloc: Global, hash: &Text) -> Result<Vec<u8>, OutOfMemory>
    requires { IsHash hash.now }
    ensures { IfOk result (λ reply. reply.items ≡ word (pos 0) ++ spell_text hash.now) }
{
    let mut to = WordWriter::with_room(alloc, hash.length() + 4)?;
    to.word(0);
    hash.put(&mut to);
    Ok(to.finish())
}

// What is answered for one of the two codes, by the reply that tells it.
fn answer_told(
    alloc: Global,
    schema: &Schema,
    interface: u32,
    told: Vec<u8>,
    bytes: &[u8],
) -> Result<Answered, OutOfMemory>
    ensures { (item : List ℕ) → told.items ≡ word (pos 0) ++ item
        → IfOk result (λ answered. answered ≡ told_answer schema.now.decls interface item
        (token_at Strict (descriptor schema.now.decls interface) bytes.now)) }
{
    let name = descriptor_of(alloc, schema, interface)?;
    match after_token(alloc, Profile::Strict, &name, bytes)? {
        Some([]) => Ok(replied(told)),
        Some(_) => {
            let reply = unread_bytes(alloc)?;
            Ok(replied(reply))
        }
        None => Ok(Answered {
            transport: BAD_TYPE,
            saw: None,
            reply: None,
        }),
    }
}

fn replied(reply: Vec<u8>) -> Answered
    ensures { result ≡ record { transport = pos 0; saw = None; reply = Some reply.items } }
{
    Answered {
        transport: 0,
        saw: None,
        reply: Some(Row::from_vec(reply)),
    }
}
