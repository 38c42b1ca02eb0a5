//! The version that is asked, and the hash that it keeps: each a step that may end the command early.
ghost use Rattle.std.specs.Prelude.{◌≡◌, true, IfOk, IfSome};
ghost use Rattle.api_versions.specs.Whole as whole;
ghost use Rattle.ask_command.specs.Versions as step;
ghost use Rattle.meta_calls.specs.Versions.{IsHash, IsVersion};
ghost use Rattle.tool_frame.specs.Results.{EndsAs, Finds};
ghost use Rattle.version_lines.specs.Lines as lines;

use aidl_base::{OutOfMemory, Row, Text};
use api_versions::{Version, defined_text, is_whole, text_of};
use itoa::Buffer;
use std::alloc::Global;
use tool_frame::{Early, refusal};
use version_lines::{first_forty, torn_answer};

/// The version of a number; `no version N` where there is none.
pub fn version_found(alloc: Global, number: u32, versions: Row<Version>) -> Result<Version, Early>
    ensures found { Finds (λ v. v) result (step.version_found number versions) }
    ensures number { IfOk result (λ _. IsVersion number) }
{
    match version_numbered(number, versions) {
        Some(version) => Ok(version),
        None => {
            let mut digits = Buffer::new();
            Err(refusal(alloc, "no version ", digits.format(number)))
        }
    }
}

// The same, None where there is none.
fn version_numbered(number: u32, versions: Row<Version>) -> Option<Version>
    ensures found { result ≡ step.version_numbered number versions }
    ensures number { IfSome result (λ _. IsVersion number) }
{
    if number < 1 || 9_999 < number {
        return None;
    }
    for version in versions.into_vec() {
        if version.number == number {
            return Some(version);
        }
    }
    None
}

/// The hash of a version, the 40 digits that its `.hash` keeps; the line `torn` of one that isn't whole.
pub fn whole_found(alloc: Global, version: &Version) -> Result<Text, Early>
    ensures found { Finds (λ hash. hash) result (step.whole_found version.now) }
    ensures hash { IfOk result IsHash }
{
    if is_whole(alloc, version)? {
        return Ok(hash_of(alloc, version)?);
    }
    Err(torn(alloc, version))
}

// The digits that the `.hash` of a whole version keeps.
fn hash_of(alloc: Global, version: &Version) -> Result<Text, OutOfMemory>
    requires { whole.is_whole version.now ≡ true }
    ensures digits { IfOk result (λ hash. hash ≡ step.hash_of version.now.kept) }
    ensures hash { IfOk result IsHash }
{
    match &version.kept {
        Some(kept) => text_of(alloc, first_forty(kept.as_slice())),
        None => Ok(Text::empty()),
    }
}

// The line of a version that isn't whole.
fn torn(alloc: Global, version: &Version) -> Early
    ensures { EndsAs result
        (lines.torn version.now.number version.now.kept (whole.defined version.now)) }
{
    match defined_of(alloc, version) {
        Ok(defined) => torn_answer(alloc, version.number, &version.kept, &defined),
        Err(_) => Early::OutOfMemory,
    }
}

fn defined_of(alloc: Global, version: &Version) -> Result<Text, OutOfMemory>
    ensures { IfOk result (λ text. text ≡ whole.defined version.now) }
{
    let defined = defined_text(alloc, version)?;
    text_of(alloc, defined.as_slice())
}
