//! Bytes in a line of text.
ghost use Rattle.growing.specs.Grows.{Grows};
ghost use Rattle.tool_frame.specs.Shown.{shown};

use growing::GrowingText;
use std::alloc::Global;

/// Adds bytes as two lower-case hexadecimal digits each, or `-` for no bytes (own).
pub fn push_shown(alloc: Global, bytes: &[u8], text: &mut GrowingText)
    ensures { Grows text.old text.new (shown bytes.now) }
{
    if bytes.is_empty() {
        text.push_str("-");
        return;
    }
    match hex::encode(alloc, bytes) {
        Ok(digits) => text.push_str(digits.as_str()),
        Err(_) => text.lose(),
    }
}
