//! The texts of the files and of the calls, each with a number in it.
ghost use Rattle.std.specs.Prelude.{◌≡◌, IfOk, string_bytes};
ghost use Rattle.growing.specs.Grows.{Grows};
ghost use Rattle.tree_make.specs.Made as meant;

use aidl_base::OutOfMemory;
use growing::GrowingText;
use std::alloc::Global;

/// Which file of a number: its parcelable or its interface, of the older tree or of the newer one.
#[derive(Clone, Copy)]
pub enum Part {
    OldRecord,
    OldInterface,
    NewRecord,
    NewInterface,
}

/// The text of a file with its number, which ends with a newline.
pub fn text_of(alloc: Global, part: Part, k: u32) -> Result<String, OutOfMemory>
    ensures { IfOk result (λ text. string_bytes text ≡ meant.filled (meant.text_of part) k) }
{
    let mut text = GrowingText::new(alloc);
    push_text(part, k, &mut text);
    text.into_string()
}

fn push_text(part: Part, k: u32, text: &mut GrowingText)
    ensures { Grows text.old text.new (meant.filled (meant.text_of part) k) }
{
    match part {
        Part::OldRecord => writeln!(
            text,
            "package m; parcelable R{k} {{ int a = {k}; String s = \"x\"; }}"
        ),
        Part::OldInterface => {
            writeln!(text, "package m; interface I{k} {{ int put(in R{k} r); }}");
        }
        Part::NewRecord => writeln!(
            text,
            "package m; parcelable R{k} {{ int a = {k}; String s = \"x\"; long c = {k}; @nullable R{k}[] kids; }}"
        ),
        Part::NewInterface => writeln!(
            text,
            "package m; interface I{k} {{ int put(in R{k} r); R{k} get(); }}"
        ),
    }
}

/// The path of a file with its number, relative to the root of its tree.
pub fn path_of(alloc: Global, part: Part, k: u32) -> Result<String, OutOfMemory>
    ensures { IfOk result (λ path. string_bytes path ≡ meant.filled (meant.path_of part) k) }
{
    let mut path = GrowingText::new(alloc);
    match part {
        Part::OldRecord | Part::NewRecord => write!(path, "m/R{k}.aidl"),
        Part::OldInterface | Part::NewInterface => write!(path, "m/I{k}.aidl"),
    }
    path.into_string()
}

/// Adds the calls of a number: two lines.
pub fn push_calls(k: u32, text: &mut GrowingText)
    ensures { Grows text.old text.new (meant.calls_of k) }
{
    writeln!(
        text,
        "{{\"call\":\"m.I{k}.put\",\"args\":[{{\"a\":{k}}}],\"answer\":{{\"return\":{k}}}}}"
    );
    writeln!(text, "{{\"call\":\"m.I{k}.get\"}}");
}
