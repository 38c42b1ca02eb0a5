//! What the bytes of a Parcel mean: definitions in `specs/` and the laws about them, which do nothing when they run.
//!
//! Of values: `Spell` (the bytes that spell a value), `Reads` (which bytes are a reading of which value), `Stop` (which bytes
//! begin no reading, and with which status), `ReadOf`, reading as one plain function, `View` (what a value is to another
//! version of its type), `SeenAs` (the same as a relation) and `Unknown` (the tags for which it is nothing there). Of calls:
//! `MethodOf` (a method of an interface among declarations), `Requests` (the bytes of a request and of a reply), `Receiver`
//! (what a stub and a client make of bytes), `MetaStub` (what a stub does that also answers for a version and a hash), `Typed`
//! (which types that has) and `Outcome` (what comes of a call between two versions). The types that they speak of are exported
//! again, and `Terms` has the words of the crates below that they use.
#![tactic(auto)]

mod depth;
mod laws;

pub use aidl_base::Profile;
pub use aidl_schema::{
    AidlType, Arg, Backing, Base, Constant, Decl, Direction, Enumerator, Field, Kind, Method,
    Schema, Shape,
};
pub use aidl_values::{Answer, Value};
pub use depth::law_depth;
pub use laws::{
    law_call_none, law_client, law_nodes, law_one_reading, law_outcome, law_outcome_within,
    law_read_of, law_reads_or_stops, law_reply_got, law_reply_seen, law_request_called,
    law_request_seen, law_seen_as, law_spelled_reads, law_strict_is_lenient, law_stub,
    law_view_none, law_view_reads, law_view_same, law_ways,
};
