//! A declaration in the canonical dump, with the declarations inside it.
ghost use Rattle.std.specs.Prelude.{◌≡◌, ◌≤◌, ◌<◌, ◌+◌, length, suc};
ghost use Rattle.growing.specs.Grows.{Grows};
ghost use Rattle.api_dump.specs.Declarations as meant;
ghost use Rattle.api_dump.specs.Pieces.{text_of};
ghost use Rattle.api_dump.specs.steps.Tables.{IsTable, row_at};

use crate::declarations::{push_closing, push_front};
use aidl_base::Row;
use aidl_schema::Decl;
use growing::GrowingText;

/// Adds the declaration of a number, with so many levels of others inside it. `rows` is the table of what stands in each.
#[cycle(push_declaration)]
pub fn push_declaration(
    decls: &[Decl],
    rows: &[Row<u32>],
    levels: usize,
    depth: usize,
    number: u32,
    text: &mut GrowingText,
)
    requires table { IsTable decls.now rows.now }
    requires deep { depth + levels ≤ 4294967296 }
    ensures { Grows text.old text.new (text_of
        (meant.declaration decls.now levels depth number)) }
{
    match decls.get(number as usize) {
        None => {}
        Some(decl) => {
            push_front(decls, depth, decl, text);
            push_nested(decls, rows, levels, depth, number, text);
            push_closing(depth, text);
        }
    }
}

// Adds what stands inside the declaration of a number.
#[cycle(push_declaration)]
#[tactic(auto, using(crate::proofs::Texts::behind))]
fn push_nested(
    decls: &[Decl],
    rows: &[Row<u32>],
    levels: usize,
    depth: usize,
    number: u32,
    text: &mut GrowingText,
)
    requires table { IsTable decls.now rows.now }
    requires deep { depth + levels ≤ 4294967296 }
    requires there { number < length decls.now }
    ensures { Grows text.old text.new (text_of
        (meant.nested_lines decls.now levels (suc depth) number)) }
{
    if levels == 0 {
        return;
    }
    for inner in row_of(rows, number) {
        push_declaration(decls, rows, levels - 1, depth + 1, *inner, text);
    }
}

// The row of a number.
fn row_of(rows: &[Row<u32>], number: u32) -> &[u32]
    ensures { result.now ≡ row_at rows.now number }
{
    match rows.get(number as usize) {
        None => &[],
        Some(row) => row.as_slice(),
    }
}
