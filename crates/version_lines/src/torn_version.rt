//! How a command is refused where a frozen version isn't whole.
ghost use Rattle.tool_frame.specs.Results.{EndsAs};
ghost use Rattle.version_lines.specs.Lines as meant;

use crate::lines::push_torn;
use aidl_base::{Row, Text};
use growing::GrowingText;
use std::alloc::Global;
use tool_frame::{Early, Verdict, end_as};

/// The line for a version that isn't whole, by what its `.hash` keeps and the text that it is to have.
pub fn torn_answer(alloc: Global, version: u32, kept: &Option<Row<u8>>, defined: &Text) -> Early
    ensures { EndsAs result (meant.torn version kept.now defined.now) }
{
    let mut text = GrowingText::new(alloc);
    write!(text, "torn {version} ");
    push_torn(alloc, kept, defined.as_str().as_bytes(), &mut text);
    text.push_str("\n");
    end_as(text, Verdict::Negative)
}
