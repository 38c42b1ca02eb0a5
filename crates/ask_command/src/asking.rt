//! The command `ask`: one request to a version of an API.
ghost use Rattle.tool_frame.specs.Due.{AsksFileThen};
ghost use Rattle.tool_frame.specs.Outside.{LinkSeen, seen_beside};
ghost use Rattle.ask_command.specs.Asked.{AskAnswers, AsksFile, AsksVersion, words_seen};
ghost use Rattle.ask_command.specs.steps.Asking.{AreAsked, IsUnasked, all_of};
ghost use Rattle.api_versions.specs.Asks.{AsksVersions};
ghost use Rattle.tool_frame.specs.Ended.{Ended};
ghost use Rattle.tool_frame.specs.Exit.{number_of};
ghost use Rattle.tool_frame.specs.Halts.{Gets, Prints};
ghost use Rattle.tool_frame.specs.Meaning.{reads_by};
ghost use Rattle.tool_frame.specs.Results.{Finds, GivesOne, held, Gives};
ghost use Rattle.tool_frame.specs.Seen.{store_seen};
ghost use Rattle.ask_command.specs.Asked as meant;
ghost use Rattle.meta_calls.specs.Versions.{IsHash, IsVersion};

use crate::answering::{Request, answer_request};
use crate::interface::interface_found;
use crate::printing::answered_text;
use crate::version::{version_found, whole_found};
use aidl_base::{Limit, LimitName, Row, Text};
use aidl_outside::{Sink, Store};
use aidl_schema::Schema;
use api_versions::{Version, VersionsFault, version_folder, versions};
use parcel_commands::parcel_of;
use std::alloc::Global;
use tool_frame::{Early, Exit, Halt, Printed, Verdict, end, give, limit_passed, load_existing};
use tool_words::AskWords;
use tree_commands::check_tree;
use version_lines::bad_versions;

/// Runs `ask API N INTERFACE CODE FILE`, by API and what is asked of version N. The answer is the exit.
pub fn ask<S: Store, K: Sink>(
    alloc: Global,
    asked: AskWords<'_>,
    store: &mut S,
    sink: &mut K,
) -> Exit
    ensures { let seen = seen_beside S.Store K.Sink in let asked = asked.entry in (others : LinkSeen)
        → Ended (reads_by (AsksFileThen asked.path.now (AsksVersions asked.api.now))
        (AskAnswers (words_seen asked) asked.path.now))
        (seen store.old sink.old others) (seen store.new sink.new others) (number_of result) }
{
    let answered = ask_api(alloc, asked, store);
    end(alloc, answered, sink)
}

// What is answered of the file of the request and the versions of API.
fn ask_api<S: Store>(alloc: Global, asked: AskWords<'_>, store: &mut S) -> Result<Printed, Halt>
    ensures { let seen = store_seen S.Store in let asked = asked.entry in
        Prints (AsksFileThen asked.path.now (AsksVersions asked.api.now))
        (AskAnswers (words_seen asked) asked.path.now) (seen store.old) (seen store.new) result }
{
    let file = load_existing(alloc, LimitName::TextBytes, asked.path, store)?;
    let versions = load_api(alloc, asked.api, store)?;
    let printed = ask_versions(alloc, asked, file, versions)?;
    Ok(printed)
}

// The versions of API, or the least number that is missing, which is refused later.
fn load_api<S: Store>(
    alloc: Global,
    api: &str,
    store: &mut S,
) -> Result<Result<Row<Version>, u32>, Halt>
    ensures { let seen = store_seen S.Store in
        Gets (AsksVersions api.now) (AreAsked api.now) (IsUnasked api.now)
        (seen store.old) (seen store.new) result }
{
    match versions(alloc, store, api) {
        Ok(versions) => Ok(Ok(versions)),
        Err(VersionsFault::BadVersions { missing }) => Ok(Err(missing)),
        Err(VersionsFault::Limit(limit)) => Err(Halt::from(limit_passed(alloc, limit))),
        Err(VersionsFault::ReadFault) => Err(Halt::StoreFailed),
        Err(VersionsFault::OutOfMemory) => Err(Halt::OutOfMemory),
    }
}

// What is answered of the file by the versions.
fn ask_versions(
    alloc: Global,
    asked: AskWords<'_>,
    file: Result<Vec<u8>, Limit>,
    versions: Result<Row<Version>, u32>,
) -> Result<Printed, Early>
    ensures { GivesOne result
        (AsksFile (words_seen asked.entry) (held file) (all_of versions)) }
{
    let parcel = parcel_of(alloc, file)?;
    let versions = all_numbered(alloc, versions)?;
    ask_version(alloc, asked, versions, parcel.as_slice())
}

// The versions; else the line `bad versions`.
fn all_numbered(alloc: Global, versions: Result<Row<Version>, u32>) -> Result<Row<Version>, Early>
    ensures { Finds (λ vs. vs) result (all_of versions) }
{
    match versions {
        Ok(versions) => Ok(versions),
        Err(missing) => Err(bad_versions(alloc, missing)),
    }
}

// What is answered of a parcel by the version that is asked.
fn ask_version(
    alloc: Global,
    asked: AskWords<'_>,
    versions: Row<Version>,
    parcel: &[u8],
) -> Result<Printed, Early>
    ensures { GivesOne result (AsksVersion (words_seen asked.entry) parcel.now versions) }
{
    let version = version_found(alloc, asked.version, versions)?;
    let hash = whole_found(alloc, &version)?;
    let Version { files, .. } = version;
    let root = version_folder(alloc, asked.api, asked.version)?;
    let schema = check_tree(alloc, root.as_str(), files)?;
    ask_answer(alloc, &schema, asked, hash, parcel)
}

/// What `ask` prints of a request, by the schema of the version and the hash that it keeps: `no interface NAME`; `collision NAME` where a
/// method has a reserved name; or with exit 0, whatever the transport is, the lines `transport STATUS`, `saw SAW` and `reply HEX`.
#[tactic(auto, using(tool_frame::proofs::lemmas::EarlyEnds::ends_there))]
pub fn ask_answer(
    alloc: Global,
    schema: &Schema,
    asked: AskWords<'_>,
    hash: Text,
    bytes: &[u8],
) -> Result<Printed, Early>
    requires version { IsVersion asked.version }
    requires hash { IsHash hash }
    ensures { let asked = asked.entry in
        Gives result (meant.ask_answer schema.now.decls asked.version hash
        asked.interface.now asked.code bytes.now) }
{
    let interface = interface_found(alloc, schema, asked.interface)?;
    let request = Request {
        interface,
        version: asked.version,
        code: asked.code,
    };
    let answered = answer_request(alloc, schema, request, hash, bytes)?;
    let text = answered_text(alloc, schema, interface, asked.code, &answered);
    give(text, Verdict::Done)
}
