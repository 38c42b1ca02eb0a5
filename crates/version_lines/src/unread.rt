//! How a command is refused where the number of a version is missing.
ghost use Rattle.tool_frame.specs.Results.{EndsAs};
ghost use Rattle.version_lines.specs.Lines as meant;

use growing::GrowingText;
use std::alloc::Global;
use tool_frame::{Early, Verdict, end_as};

/// The line for version numbers that aren't 1 to n: the least that is missing.
pub fn bad_versions(alloc: Global, missing: u32) -> Early
    ensures { EndsAs result (meant.bad_versions missing) }
{
    let mut text = GrowingText::new(alloc);
    writeln!(text, "bad versions missing {missing}");
    end_as(text, Verdict::Negative)
}
