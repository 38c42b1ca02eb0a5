//! Types in a canonical dump, with the annotations before them.
#![tactic(auto, using(crate::proofs::Texts::behind), unfolding(crate::specs::Pieces::spelling))]

ghost use Rattle.growing.specs.Grows.{Grows};
ghost use Rattle.api_dump.specs.Lines.{whole_type};
ghost use Rattle.api_dump.specs.Pieces.{dotted, text_of};
ghost use Rattle.api_dump.specs.Types as meant;

use crate::names::push_dotted;
use aidl_schema::{AidlType, Base, Decl, Shape};
use growing::GrowingText;

/// Adds a type with the annotations before it.
pub fn push_type(decls: &[Decl], ty: &AidlType, text: &mut GrowingText)
    ensures { Grows text.old text.new (text_of (whole_type decls.now ty.now)) }
{
    push_nullable(ty.nullable, ty.heap, text);
    if ty.utf8 {
        text.push_str("@utf8InCpp ");
    }
    push_shaped(decls, ty, text);
}

fn push_nullable(is_nullable: bool, heap: bool, text: &mut GrowingText)
    ensures { Grows text.old text.new (text_of (meant.nullable is_nullable heap)) }
{
    if is_nullable && heap {
        text.push_str("@nullable(heap=true) ");
    } else if is_nullable {
        text.push_str("@nullable ");
    }
}

// Adds a type without what stands before it.
fn push_shaped(decls: &[Decl], ty: &AidlType, text: &mut GrowingText)
    ensures { Grows text.old text.new (text_of (meant.plain_type decls.now ty.now)) }
{
    match ty.shape {
        Shape::One => push_base(decls, ty.base, text),
        Shape::Array => {
            push_base(decls, ty.base, text);
            text.push_str("[]");
        }
        Shape::List => {
            text.push_str("List<");
            push_base(decls, ty.base, text);
            text.push_str(">");
        }
    }
}

/// Adds a built-in name, or the canonical name of a declaration.
pub fn push_base(decls: &[Decl], base: Base, text: &mut GrowingText)
    ensures { Grows text.old text.new (text_of (dotted (meant.base_name decls.now base))) }
{
    match base {
        Base::Boolean => text.push_str("boolean"),
        Base::Byte => text.push_str("byte"),
        Base::Char => text.push_str("char"),
        Base::Int => text.push_str("int"),
        Base::Long => text.push_str("long"),
        Base::Text => text.push_str("String"),
        Base::Named(number) => {
            if let Some(decl) = decls.get(number as usize) {
                push_dotted(decl.name.0.as_slice(), text);
            }
        }
    }
}
