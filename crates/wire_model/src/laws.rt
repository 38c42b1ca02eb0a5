//! Laws of the bytes of values and of calls, within one schema and between two versions of it.
ghost use Rattle.std.specs.Prelude.{◌≡◌, ◌-◌, ◌*◌, ◌≤◌, ◌<◌, ◌↔◌, ◌++◌, ◌⊎◌, ◌||◌, true, false, List, [], ℕ, ℤ, Option, Some, None, Ok, Err, is_none, length};
ghost use Rattle.aidl_base.specs.declared.profile.Profile.TheVariants.{Strict, Lenient};
ghost use Rattle.aidl_schema.specs.Broken.{broken};
ghost use Rattle.aidl_schema.specs.Find.{methods_at, position_of_code};
ghost use Rattle.aidl_schema.specs.Same.{same};
ghost use Rattle.aidl_schema.specs.Types.{is_type};
ghost use Rattle.aidl_values.specs.Data.{Data, Items, depth_of};
ghost use Rattle.aidl_values.specs.Fits.{Fits};
ghost use Rattle.aidl_values.specs.HasType.{HasType};
ghost use Rattle.aidl_values.specs.Nodes.{nodes_of};
ghost use Rattle.aidl_values.specs.View.{view, views};
ghost use Rattle.wire_model.specs.Calls.{AnswerData, answer_of, returned, arguments, code_at, descriptor, is_oneway, method_at, out_types, result_type};
ghost use Rattle.wire_model.specs.MethodOf.{method_of};
ghost use Rattle.wire_model.specs.Outcome.{OneFollows, Reaches, SameWays, declared_as, done, method_like, oneway, outcome, outcome_within, received_call, seen_answer, view_arguments, view_result, view_values};
ghost use Rattle.wire_model.specs.ReadOf.{read_of};
ghost use Rattle.wire_model.specs.Reads.{FrontReads, Reads};
ghost use Rattle.wire_model.specs.Receiver.{called, client, left, opened_arguments, stub};
ghost use Rattle.wire_model.specs.Requests.{AnswerFits, ArgsFit, ArgumentsFit, IsAnswer, reply, request};
ghost use Rattle.wire_model.specs.SeenAs.{SeenAs};
ghost use Rattle.wire_model.specs.Spell.{spell};
ghost use Rattle.wire_model.specs.Status.{IsStatus, IsTransport, bad_value, unknown_transaction};
ghost use Rattle.wire_model.specs.Stop.{Stop, Stops};
ghost use Rattle.wire_model.specs.Typed.{AreArguments, IsGot};
ghost use Rattle.wire_model.specs.Unknown.{TagsHinderAnswered, TagsHinderSent, has_unknown_tag};
ghost use Rattle.wire_model.specs.View.{view_of};
ghost use Rattle.wire_model.specs.steps.CallsMeet.{CallsMeet};
ghost use Rattle.wire_model.specs.steps.Meets.{Meets};

use aidl_base::Profile;
use aidl_schema::{AidlType, Schema, law_chain, law_same_types, law_unbroken, law_valid};
use aidl_values::{Answer, Value, law_small_defaults, law_sound, law_typed_defaults};

/// What spells a value of a type, of at most 64 levels and in at most 1,048,576 bytes, is a reading of it by either profile.
pub fn law_spelled_reads(
    profile: Profile,
    schema: &Schema,
    ty: &AidlType,
    levels: usize,
    value: &Value,
)
    requires typed { HasType schema.now.decls ty.now (view value.now) }
    requires deep { depth_of (view value.now) ≤ levels }
    requires few { levels ≤ 64 }
    requires small { length (spell schema.now.decls ty.now (view value.now)) ≤ 1048576 }
    ensures { Reads profile schema.now.decls levels ty.now
        (spell schema.now.decls ty.now (view value.now)) (view value.now) }
{}

/// No reading is the front of a longer one of the same type and level, and a reading is of one value.
pub fn law_one_reading(
    profile: Profile,
    schema: &Schema,
    ty: &AidlType,
    levels: usize,
    b: &[u8],
    c: &[u8],
    first: &Value,
    second: &Value,
)
    requires known { is_type schema.now.decls ty.now ≡ true }
    requires one { Reads profile schema.now.decls levels ty.now b.now (view first.now) }
    requires two { Reads profile schema.now.decls levels ty.now c.now (view second.now) }
    requires front { (rest : List ℕ) × (c.now ≡ b.now ++ rest) }
    ensures bytes { b.now ≡ c.now }
    ensures values { view first.now ≡ view second.now }
{
    law_sound(schema);
}

/// Bytes begin a reading or stop, never both. They stop with one status alone, of which `first` and `second` are two,
/// and it is BAD_VALUE, NOT_ENOUGH_DATA or UNEXPECTED_NULL.
pub fn law_reads_or_stops(
    profile: Profile,
    schema: &Schema,
    ty: &AidlType,
    levels: usize,
    b: &[u8],
    inside: bool,
    first: i32,
    second: i32,
)
    requires known { is_type schema.now.decls ty.now ≡ true }
    ensures one { FrontReads profile schema.now.decls levels ty.now b.now
        ⊎ Stops profile schema.now.decls levels ty.now b.now inside }
    ensures not_both { FrontReads profile schema.now.decls levels ty.now b.now
        → Stops profile schema.now.decls levels ty.now b.now inside → ⊥ }
    ensures one_status { Stop profile schema.now.decls levels ty.now b.now inside first
        → Stop profile schema.now.decls levels ty.now b.now inside second → first ≡ second }
    ensures status { (s : ℤ) → Stop profile schema.now.decls levels ty.now b.now inside s
        → IsStatus s }
{
    law_sound(schema);
}

/// Reading as a plain function is exactly `Reads` and `Stop`: it gives a value and the bytes after it where a front is a
/// reading of that value and those bytes follow it, and a status where the bytes stop with that status. The value has the
/// type, and at most 64 nodes for each byte before the rest.
pub fn law_read_of(
    profile: Profile,
    schema: &Schema,
    ty: &AidlType,
    levels: usize,
    b: &[u8],
    inside: bool,
)
    requires known { is_type schema.now.decls ty.now ≡ true }
    ensures reads { (v : Data) (rest : List ℕ)
        → (read_of profile schema.now.decls levels ty.now inside b.now ≡ Ok (v, rest))
        ↔ ((front : List ℕ) × (b.now ≡ front ++ rest)
        × Reads profile schema.now.decls levels ty.now front v) }
    ensures stops { (s : ℤ) → (read_of profile schema.now.decls levels ty.now inside b.now ≡ Err s)
        ↔ Stop profile schema.now.decls levels ty.now b.now inside s }
    ensures typed { (v : Data) (rest : List ℕ)
        → read_of profile schema.now.decls levels ty.now inside b.now ≡ Ok (v, rest)
        → HasType schema.now.decls ty.now v }
    ensures nodes { (v : Data) (rest : List ℕ)
        → read_of profile schema.now.decls levels ty.now inside b.now ≡ Ok (v, rest)
        → nodes_of v ≤ 64 * (length b.now - length rest) }
{
    law_sound(schema);
    law_small_defaults(schema);
}

/// What is read of so many bytes has at most 64 times as many nodes: the values in it, itself included, and one for each
/// character of each text. So no count and no size word makes a large value by itself.
pub fn law_nodes(
    profile: Profile,
    schema: &Schema,
    ty: &AidlType,
    levels: usize,
    b: &[u8],
    value: &Value,
)
    requires { Reads profile schema.now.decls levels ty.now b.now (view value.now) }
    ensures { nodes_of (view value.now) ≤ 64 * length b.now }
{
    law_sound(schema);
    law_small_defaults(schema);
}

/// What the strict profile reads, the lenient one reads.
pub fn law_strict_is_lenient(schema: &Schema, ty: &AidlType, levels: usize, b: &[u8], value: &Value)
    requires { Reads Strict schema.now.decls levels ty.now b.now (view value.now) }
    ensures { Reads Lenient schema.now.decls levels ty.now b.now (view value.now) }
{}

/// What is sent by one of two schemas, of which one is a legal evolution of the other, is read by the other as its view; where
/// there is no view, reading stops with BAD_VALUE whatever follows.
pub fn law_view_reads(
    profile: Profile,
    a: &Schema,
    t: &AidlType,
    b: &Schema,
    u: &AidlType,
    value: &Value,
    c: &[u8],
    inside: bool,
)
    requires unbroken { OneFollows a.now.decls b.now.decls }
    requires same { same a.now.decls t.now b.now.decls u.now ≡ true }
    requires fits { Fits a.now.decls t.now (view value.now) }
    requires small { length (spell a.now.decls t.now (view value.now)) ≤ 1048576 }
    ensures reads { (w : Data)
        → view_of a.now.decls t.now b.now.decls u.now (view value.now) ≡ Some w
        → Reads profile b.now.decls 64 u.now (spell a.now.decls t.now (view value.now)) w }
    ensures typed { (w : Data) → view_of a.now.decls t.now b.now.decls u.now (view value.now)
        ≡ Some w → HasType b.now.decls u.now w }
    ensures stops { view_of a.now.decls t.now b.now.decls u.now (view value.now) ≡ None
        → Stop profile b.now.decls 64 u.now
        (spell a.now.decls t.now (view value.now) ++ c.now) inside bad_value }
{
    law_meets(a, b);
}

/// Within one schema a value is its own view.
pub fn law_view_same(schema: &Schema, ty: &AidlType, value: &Value)
    requires known { is_type schema.now.decls ty.now ≡ true }
    requires typed { HasType schema.now.decls ty.now (view value.now) }
    ensures { view_of schema.now.decls ty.now schema.now.decls ty.now (view value.now)
        ≡ Some (view value.now) }
{
    law_chain(schema, schema, schema);
    law_meets(schema, schema);
    law_same_types(schema, schema);
}

/// Of any two schemas: where a value has a view, this is what it is seen as: common fields are what they were, what the sender lacks is
/// the default, and what the receiver lacks is dropped.
pub fn law_seen_as(a: &Schema, b: &Schema)
    ensures { (t u : AidlType) (v w : Data) → view_of a.now.decls t b.now.decls u v ≡ Some w
        → SeenAs a.now.decls t b.now.decls u v w }
{}

/// Between two schemas of which one is a legal evolution of the other, a value of the sender's type has no view exactly where a tag in
/// it, not below a field that is dropped, has no alternative of its name in the receiver's schema.
pub fn law_view_none(a: &Schema, b: &Schema)
    ensures { OneFollows a.now.decls b.now.decls → (t u : AidlType) (v : Data)
        → same a.now.decls t b.now.decls u ≡ true → HasType a.now.decls t v
        → is_none (view_of a.now.decls t b.now.decls u v)
        ≡ has_unknown_tag a.now.decls t b.now.decls u v }
{
    law_meets(a, b);
}

/// The same of a call from a client `a` to a method of the server `b` that has its name: of the arguments, where what is sent of an `out` one
/// isn't looked at, and of the result and the outs.
pub fn law_call_none(a: &Schema, b: &Schema)
    ensures sent { OneFollows a.now.decls b.now.decls → (i m j n : ℕ)
        → TagsHinderSent (method_of a.now.decls i m) (method_of b.now.decls j n) }
    ensures answered { OneFollows a.now.decls b.now.decls → (i m j n : ℕ)
        → TagsHinderAnswered (method_of a.now.decls i m) (method_of b.now.decls j n) }
{
    law_meets(a, b);
    law_meets(b, a);
    law_calls_meet(a, b);
    law_calls_meet(b, a);
    law_valid(a);
}

/// Where a stub calls a method, the code is the method's, and the values have the types of its arguments. A request is refused
/// with UNKNOWN_TRANSACTION, with BAD_TYPE or with a status of reading.
pub fn law_stub(profile: Profile, schema: &Schema, interface: u32, code: u32, bytes: &[u8])
    ensures coded { (m : ℕ) (saw : Items) → stub profile schema.now.decls interface code bytes.now
        ≡ Ok (called m saw)
        → position_of_code (methods_at schema.now.decls interface) code ≡ Some m }
    ensures typed { (m : ℕ) (saw : Items) → stub profile schema.now.decls interface code bytes.now
        ≡ Ok (called m saw) → AreArguments (method_of schema.now.decls interface m) saw }
    ensures status { (s : ℤ) → stub profile schema.now.decls interface code bytes.now ≡ Err s
        → IsTransport s }
{
    law_sound(schema);
    law_valid(schema);
    law_typed_defaults(schema);
}

/// What a client gets of a method has the types of its result and of its outs. A reply is refused with a status of reading.
pub fn law_client(profile: Profile, schema: &Schema, interface: u32, method: u32, bytes: &[u8])
    ensures typed { (a : AnswerData) → client profile (method_of schema.now.decls interface method)
        bytes.now
        ≡ Ok a → IsGot (method_of schema.now.decls interface method) a }
    ensures status { (s : ℤ) → client profile (method_of schema.now.decls interface method)
        bytes.now ≡ Err s
        → IsStatus s }
{
    law_sound(schema);
    law_valid(schema);
}

/// A request is called with the values that were sent, and with the openings of its `out` arguments.
pub fn law_request_called(
    profile: Profile,
    schema: &Schema,
    interface: u32,
    method: u32,
    args: &[Value],
    bytes: &[u8],
)
    requires there { method < length (methods_at schema.now.decls interface) }
    requires fits { ArgsFit (method_of schema.now.decls interface method) (views args.now) }
    requires spelled { bytes.now ≡ request (method_of schema.now.decls interface method)
        (views args.now) }
    requires small { length bytes.now ≤ 1048576 }
    ensures { stub profile schema.now.decls interface
        (code_at (method_of schema.now.decls interface method)) bytes.now
        ≡ Ok (called method (opened_arguments schema.now.decls
        (arguments (method_of schema.now.decls interface method)) (views args.now))) }
{
    law_chain(schema, schema, schema);
    law_meets(schema, schema);
    law_calls_meet(schema, schema);
    law_same_types(schema, schema);
    law_sound(schema);
    law_valid(schema);
}

/// A client gets the answer that was replied.
pub fn law_reply_got(
    profile: Profile,
    schema: &Schema,
    interface: u32,
    method: u32,
    answer: &Answer,
    bytes: &[u8],
)
    requires there { method < length (methods_at schema.now.decls interface) }
    requires fits { AnswerFits (method_of schema.now.decls interface method)
        (answer_of answer.now) }
    requires spelled { bytes.now ≡ reply (method_of schema.now.decls interface method)
        (answer_of answer.now) }
    ensures { client profile (method_of schema.now.decls interface method) bytes.now
        ≡ Ok (answer_of answer.now) }
{
    law_chain(schema, schema, schema);
    law_meets(schema, schema);
    law_calls_meet(schema, schema);
    law_same_types(schema, schema);
    law_sound(schema);
    law_valid(schema);
}

/// Of a request of one of two schemas, of which one is a legal evolution of the other, the other's stub makes what `Outcome` says: no
/// method has the code where the server lacks the method; BAD_VALUE where an argument has no view; or else the method of
/// that name is called, with the views of the arguments and with the server's openings.
pub fn law_request_seen(
    profile: Profile,
    a: &Schema,
    interface: u32,
    method: u32,
    b: &Schema,
    other: u32,
    args: &[Value],
    bytes: &[u8],
)
    requires unbroken { OneFollows a.now.decls b.now.decls }
    requires shared { declared_as b.now.decls (descriptor a.now.decls interface) ≡ Some other }
    requires fits { ArgsFit (method_of a.now.decls interface method) (views args.now) }
    requires spelled { bytes.now ≡ request (method_of a.now.decls interface method)
        (views args.now) }
    requires small { length bytes.now ≤ 1048576 }
    ensures { stub profile b.now.decls other (code_at (method_of a.now.decls interface method))
        bytes.now
        ≡ received_call (method_of a.now.decls interface method) b.now.decls other
        (views args.now) }
{
    law_meets(a, b);
    law_calls_meet(a, b);
    law_sound(b);
    law_valid(b);
}

/// Of a reply of the server `b` the client `a` makes what `Outcome` says: the same exception; BAD_VALUE where the result or an out
/// has no view; or else the views of the result and of the outs.
pub fn law_reply_seen(
    profile: Profile,
    a: &Schema,
    interface: u32,
    method: u32,
    b: &Schema,
    other: u32,
    other_method: u32,
    answer: &Answer,
    bytes: &[u8],
)
    requires unbroken { OneFollows a.now.decls b.now.decls }
    requires shared { declared_as b.now.decls (descriptor a.now.decls interface) ≡ Some other }
    requires common { method_like (method_at (method_of a.now.decls interface method))
        (methods_at b.now.decls other) ≡ Some other_method }
    requires fits { AnswerFits (method_of b.now.decls other other_method) (answer_of answer.now) }
    requires spelled { bytes.now ≡ reply (method_of b.now.decls other other_method)
        (answer_of answer.now) }
    ensures { client profile (method_of a.now.decls interface method) bytes.now
        ≡ seen_answer (method_of b.now.decls other other_method)
        (method_of a.now.decls interface method)
        (answer_of answer.now) }
{
    law_meets(b, a);
    law_calls_meet(b, a);
    law_sound(a);
    law_valid(a);
}

/// Between two schemas of which one is a legal evolution of the other, a call whose request and reply are carried unaltered comes to
/// its `Outcome`: that without the server's interface; the status with which its stub refuses the request, which never has bytes
/// left over; and where it calls a method, what the method sees, and what the client makes of the reply.
pub fn law_outcome(
    profile: Profile,
    a: &Schema,
    interface: u32,
    method: u32,
    b: &Schema,
    other: u32,
    args: &[Value],
    answer: &Answer,
    sent: &[u8],
    replied: &[u8],
)
    requires fits { ArgsFit (method_of a.now.decls interface method) (views args.now) }
    requires spelled { sent.now ≡ request (method_of a.now.decls interface method)
        (views args.now) }
    requires small { length sent.now ≤ 1048576 }
    ensures nowhere { OneFollows a.now.decls b.now.decls
        → declared_as b.now.decls (descriptor a.now.decls interface) ≡ None
        → outcome (method_of a.now.decls interface method) b.now.decls (views args.now)
        (answer_of answer.now)
        ≡ Err unknown_transaction }
    ensures refused { OneFollows a.now.decls b.now.decls
        → declared_as b.now.decls (descriptor a.now.decls interface) ≡ Some other
        → (s : ℤ) → stub profile b.now.decls other
        (code_at (method_of a.now.decls interface method)) sent.now ≡ Err s
        → outcome (method_of a.now.decls interface method) b.now.decls
        (views args.now) (answer_of answer.now) ≡ Err s }
    ensures never_left { OneFollows a.now.decls b.now.decls
        → declared_as b.now.decls (descriptor a.now.decls interface) ≡ Some other
        → (n : ℕ) → stub profile b.now.decls other (code_at
        (method_of a.now.decls interface method)) sent.now
        ≡ Ok (left n) → ⊥ }
    ensures common { OneFollows a.now.decls b.now.decls
        → declared_as b.now.decls (descriptor a.now.decls interface) ≡ Some other
        → (n : ℕ) (saw : Items) → stub profile b.now.decls other
        (code_at (method_of a.now.decls interface method)) sent.now ≡ Ok (called n saw)
        → method_like (method_at (method_of a.now.decls interface method))
        (methods_at b.now.decls other) ≡ Some n }
    ensures oneway { OneFollows a.now.decls b.now.decls
        → declared_as b.now.decls (descriptor a.now.decls interface) ≡ Some other
        → (n : ℕ) (saw : Items) → stub profile b.now.decls other
        (code_at (method_of a.now.decls interface method)) sent.now ≡ Ok (called n saw)
        → is_oneway (method_of b.now.decls other n) ≡ true
        → outcome (method_of a.now.decls interface method) b.now.decls (views args.now)
        (answer_of answer.now)
        ≡ Ok (oneway saw) }
    ensures done { OneFollows a.now.decls b.now.decls
        → declared_as b.now.decls (descriptor a.now.decls interface) ≡ Some other
        → (n : ℕ) (saw : Items) → stub profile b.now.decls other
        (code_at (method_of a.now.decls interface method)) sent.now ≡ Ok (called n saw)
        → is_oneway (method_of b.now.decls other n) ≡ false
        → AnswerFits (method_of b.now.decls other n) (answer_of answer.now)
        → replied.now ≡ reply (method_of b.now.decls other n) (answer_of answer.now)
        → outcome (method_of a.now.decls interface method) b.now.decls (views args.now)
        (answer_of answer.now)
        ≡ Ok (done saw (client profile (method_of a.now.decls interface method) replied.now)) }
{
    law_meets(a, b);
    law_meets(b, a);
    law_calls_meet(a, b);
    law_calls_meet(b, a);
    law_sound(a);
    law_sound(b);
    law_valid(a);
    law_valid(b);
}

/// Within one schema a call comes to what was sent and what was answered: an interface and a method are found by their own names, and
/// where the answer fits, the handler sees what was sent and the client has what was answered.
pub fn law_outcome_within(
    schema: &Schema,
    interface: u32,
    method: u32,
    args: &[Value],
    answer: &Answer,
)
    requires there { method < length (methods_at schema.now.decls interface) }
    requires fits { ArgsFit (method_of schema.now.decls interface method) (views args.now) }
    ensures declared { declared_as schema.now.decls (descriptor schema.now.decls interface)
        ≡ Some interface }
    ensures like { method_like (method_at (method_of schema.now.decls interface method))
        (methods_at schema.now.decls interface) ≡ Some method }
    ensures comes { AnswerFits (method_of schema.now.decls interface method) (answer_of answer.now)
        → outcome (method_of schema.now.decls interface method) schema.now.decls
        (views args.now) (answer_of answer.now)
        ≡ Ok
        (outcome_within (method_of schema.now.decls interface method) (views args.now)
        (answer_of answer.now)) }
{
    law_chain(schema, schema, schema);
    law_meets(schema, schema);
    law_calls_meet(schema, schema);
    law_same_types(schema, schema);
    law_valid(schema);
}

/// Where no evolution rule is broken from one of two schemas to the other, no code of an interface that both have is that of a oneway
/// method in one and of a two-way method in the other.
pub fn law_ways(a: &Schema, b: &Schema)
    ensures { OneFollows a.now.decls b.now.decls → SameWays a.now.decls b.now.decls }
{
    law_valid(a);
    law_valid(b);
    law_unbroken(a, b);
    law_unbroken(b, a);
}

/// Where no evolution rule is broken from one of two schemas to the other, types that are the same mean the same to both, as
/// far as what is sent by `a` and read by `b` needs it.
fn law_meets(a: &Schema, b: &Schema)
    ensures { OneFollows a.now.decls b.now.decls → Meets a.now.decls b.now.decls }
{
    law_valid(a);
    law_valid(b);
    law_sound(a);
    law_sound(b);
    law_unbroken(a, b);
    law_unbroken(b, a);
    law_same_types(b, a);
}

/// The same of methods: those of one name take the same calls, and no other method has the code of one that the other schema
/// lacks.
fn law_calls_meet(a: &Schema, b: &Schema)
    ensures { OneFollows a.now.decls b.now.decls → CallsMeet a.now.decls b.now.decls }
{
    law_valid(a);
    law_valid(b);
    law_unbroken(a, b);
    law_unbroken(b, a);
    law_same_types(b, a);
}
