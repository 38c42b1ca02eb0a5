//! Whether a schema may follow the versions of an API, and the next version that it makes.
ghost use Rattle.std.specs.Prelude.{◌≡◌, List, Some, None, IfErr, OnOk};
ghost use Rattle.aidl_schema.specs.declared.schema.Decl.{Decl};
ghost use Rattle.api_freeze.specs.Chains.{FollowsEach};
ghost use Rattle.api_freeze.specs.Freeze.{Forbids, IsDump, IsRead};
ghost use Rattle.api_freeze.specs.steps.Following.{Compares, Fits, Follows, FollowsAll, FollowsOne, Numbers, Prepares};
ghost use Rattle.api_freeze.specs.steps.Following as step;
ghost use Rattle.api_versions.specs.Whole as whole;
ghost use Rattle.type_check.specs.Refusals.{IsRefusal};

use crate::fault::FreezeFault;
use aidl_base::{Limit, LimitName, Row, SourceFile};
use aidl_schema::Schema;
use api_dump::dump;
use api_versions::{Version, first_torn};
use compat_judge::judge;
use dump_reading::{law_dump_back, law_dump_parses};
use std::alloc::Global;
use tree_files::{FilesFault, parse_files};
use type_check::{CheckFault, check, law_one_schema};

/// The next version: its number, and the files of the dump.
#[derive(Drop)]
pub struct Next {
    pub number: u32,
    pub files: Row<SourceFile>,
}

/// What is to be written as the next version of a schema, or the first refusal.
pub fn prepare(alloc: Global, schema: &Schema, versions: Row<Version>) -> Result<Next, FreezeFault>
    ensures answer { Prepares versions schema.now.decls result }
    ensures read { IfErr result IsRead }
{
    let torn = first_torn(alloc, versions.as_slice())?;
    match torn {
        None => prepare_whole(alloc, schema, versions),
        Some(torn) => Err(FreezeFault::Torn(torn)),
    }
}

// The same, where each version is whole.
fn prepare_whole(
    alloc: Global,
    schema: &Schema,
    versions: Row<Version>,
) -> Result<Next, FreezeFault>
    requires { whole.first_torn versions ≡ None }
    ensures answer { Prepares versions schema.now.decls result }
    ensures read { IfErr result IsRead }
{
    let count = versions.len();
    let files = dump(alloc, schema)?;
    match follow(alloc, schema, files.as_slice(), versions) {
        Ok(()) => numbered(alloc, schema, count, files),
        Err(fault) => Err(fault),
    }
}

// The next version after so many, where its number and its files pass no limit.
fn numbered(
    alloc: Global,
    schema: &Schema,
    count: usize,
    files: Row<SourceFile>,
) -> Result<Next, FreezeFault>
    requires { IsDump schema.now.decls files }
    ensures answer { Numbers schema.now.decls count files result }
    ensures read { IfErr result IsRead }
{
    if count >= LimitName::Versions.number() as usize {
        return Err(FreezeFault::Limit(Limit {
            which: LimitName::Versions,
        }));
    }
    match fit(alloc, schema, files.as_slice()) {
        Ok(()) => Ok(Next {
            number: count as u32 + 1,
            files,
        }),
        Err(fault) => Err(fault),
    }
}

// Whether the files of the dump of a schema pass no limit, so that they read back as this schema.
fn fit(alloc: Global, schema: &Schema, files: &[SourceFile]) -> Result<(), FreezeFault>
    requires { IsDump schema.now.decls files.now }
    ensures { Fits schema.now.decls files.now result }
{
    match parse_files(alloc, files) {
        Ok(_parsed) => {
            law_dump_back(schema);
            Ok(())
        }
        Err(FilesFault::Limit(limit)) => Err(FreezeFault::Limit(limit)),
        Err(FilesFault::OutOfMemory) => Err(FreezeFault::OutOfMemory),
        Err(FilesFault::Lex(_) | FilesFault::Syntax(_)) => {
            law_dump_parses(schema);
            unreachable!()
        }
    }
}

// Whether a schema with this dump may follow the latest of some versions.
fn follow(
    alloc: Global,
    schema: &Schema,
    files: &[SourceFile],
    versions: Row<Version>,
) -> Result<(), FreezeFault>
    requires { IsDump schema.now.decls files.now }
    ensures answer { FollowsAll versions schema.now.decls result }
    ensures each { OnOk result (FollowsEach versions schema.now.decls) }
    ensures read { IfErr result IsRead }
{
    let mut versions = versions.into_vec();
    match versions.pop() {
        Some(latest) => follow_latest(alloc, schema, files, latest),
        None => Ok(()),
    }
}

// Whether it may follow this version.
fn follow_latest(
    alloc: Global,
    schema: &Schema,
    files: &[SourceFile],
    latest: Version,
) -> Result<(), FreezeFault>
    requires { IsDump schema.now.decls files.now }
    ensures answer { Follows latest schema.now.decls result }
    ensures one { OnOk result (FollowsOne latest schema.now.decls) }
    ensures read { IfErr result IsRead }
{
    match check(alloc, latest.files.as_slice()) {
        Ok(old) => {
            law_one_schema(latest.files.as_slice());
            compare(alloc, latest.number, &old, schema, files)
        }
        Err(fault) => Err(unread(latest, fault)),
    }
}

// What is answered where the files of a version aren't a checked tree.
fn unread(latest: Version, fault: CheckFault) -> FreezeFault
    requires { IsRefusal latest.files fault }
    ensures answer { (S : List Decl) → Forbids (Some latest) S result }
    ensures read { IsRead result }
{
    let version = latest.number;
    let files = latest.files;
    match fault {
        CheckFault::Limit(limit) => FreezeFault::Limit(limit),
        CheckFault::OutOfMemory => FreezeFault::OutOfMemory,
        CheckFault::Lex(rows) => FreezeFault::Unreadable {
            version,
            files,
            fault: CheckFault::Lex(rows),
        },
        CheckFault::Syntax(rows) => FreezeFault::Unreadable {
            version,
            files,
            fault: CheckFault::Syntax(rows),
        },
        CheckFault::Breaches(rows) => FreezeFault::Unreadable {
            version,
            files,
            fault: CheckFault::Breaches(rows),
        },
    }
}

// Whether a schema with this dump may follow that of the version with a number.
fn compare(
    alloc: Global,
    number: u32,
    old: &Schema,
    schema: &Schema,
    files: &[SourceFile],
) -> Result<(), FreezeFault>
    requires { IsDump schema.now.decls files.now }
    ensures answer { Compares number old.now.decls schema.now.decls result }
{
    let before = dump(alloc, old)?;
    if are_same(before.as_slice(), files) {
        return Err(FreezeFault::Unchanged { version: number });
    }
    let broken = judge(alloc, old, schema)?;
    if broken.len() > 0 {
        return Err(FreezeFault::Incompatible(broken));
    }
    Ok(())
}

// Whether these are the same files.
fn are_same(first: &[SourceFile], second: &[SourceFile]) -> bool
    ensures { result ≡ step.are_same first.now second.now }
{
    if first.len() != second.len() {
        return false;
    }
    for i in 0..first.len() {
        if !is_same(&first[i], &second[i]) {
            return false;
        }
    }
    true
}

fn is_same(first: &SourceFile, second: &SourceFile) -> bool
    ensures { result ≡ step.is_same first.now second.now }
{
    first.path.as_str().as_bytes() == second.path.as_str().as_bytes()
        && first.bytes.as_slice() == second.bytes.as_slice()
}
