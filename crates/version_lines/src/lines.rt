//! The line that `verify` prints of a version, and the words for a version that isn't whole.
ghost use Rattle.std.specs.Prelude.{◌≡◌, take};
ghost use Rattle.growing.specs.Grows.{Grows};
ghost use Rattle.api_versions.specs.Whole as whole;
ghost use Rattle.version_lines.specs.Lines as meant;

use aidl_base::Row;
use api_versions::{Version, defined_text, text_of};
use growing::GrowingText;
use std::alloc::Global;
use tool_frame::push_shown;

/// Adds the line of a version: `N HASH ok` of one that is whole, else `N missing HASH` or `N kept BYTES HASH`.
pub fn push_version(alloc: Global, version: &Version, is_whole: bool, text: &mut GrowingText)
    requires { is_whole ≡ whole.is_whole version.now }
    ensures { Grows text.old text.new (meant.version_line version.now) }
{
    let number = version.number;
    write!(text, "{number} ");
    if !is_whole {
        match defined_text(alloc, version) {
            Ok(defined) => push_torn(alloc, &version.kept, defined.as_slice(), text),
            Err(_) => text.lose(),
        }
    } else if let Some(kept) = &version.kept {
        push_digits(alloc, kept.as_slice(), text);
        text.push_str(" ok");
    }
    text.push_str("\n");
}

/// Adds the words of a version that isn't whole, by the text that its `.hash` is to have: `missing HASH` or `kept BYTES HASH`.
pub fn push_torn(alloc: Global, kept: &Option<Row<u8>>, defined: &[u8], text: &mut GrowingText)
    ensures { Grows text.old text.new (meant.torn_words kept.now defined.now) }
{
    match kept {
        None => text.push_str("missing "),
        Some(kept) => {
            text.push_str("kept ");
            push_shown(alloc, kept.as_slice(), text);
            text.push_str(" ");
        }
    }
    push_digits(alloc, defined, text);
}

// Adds the 40 digits of the text of a `.hash`.
fn push_digits(alloc: Global, hash: &[u8], text: &mut GrowingText)
    ensures { Grows text.old text.new (meant.digits hash.now) }
{
    match text_of(alloc, first_forty(hash)) {
        Ok(digits) => text.push_str(digits.as_str()),
        Err(_) => text.lose(),
    }
}

/// The first 40 bytes: of a `.hash` that is whole, its digits.
#[tactic(auto, using(crate::proofs::Forty::all_of_few))]
pub fn first_forty(bytes: &[u8]) -> &[u8]
    ensures { result.now ≡ take 40 bytes.now }
{
    if bytes.len() < 40 {
        return bytes;
    }
    &bytes[..40]
}
