//! Names in a canonical dump: dotted, simple, and as paths.
#![tactic(auto, using(crate::proofs::Texts::behind), unfolding(crate::specs::Pieces::spelling))]

ghost use Rattle.std.specs.Prelude.{◌∷◌, []};
ghost use Rattle.growing.specs.Grows.{Grows};
ghost use Rattle.aidl_schema.specs.Names.{last_part};
ghost use Rattle.api_dump.specs.Dump.{slashed};
ghost use Rattle.api_dump.specs.Pieces.{dotted, ident, name, text_of};
ghost use Rattle.api_dump.specs.Pieces.Piece.{space};

use aidl_base::Ident;
use growing::GrowingText;

/// Adds identifiers joined by dots.
pub fn push_dotted(parts: &[Ident], text: &mut GrowingText)
    ensures { Grows text.old text.new (text_of (dotted parts.now)) }
{
    let [first, others @ ..] = parts else {
        return;
    };
    text.push_str(first.0.as_str());
    for part in others {
        text.push_str(".");
        text.push_str(part.0.as_str());
    }
}

/// Adds identifiers with `/` between them.
pub fn push_slashed(parts: &[Ident], text: &mut GrowingText)
    ensures { Grows text.old text.new (slashed parts.now) }
{
    let [first, others @ ..] = parts else {
        return;
    };
    text.push_str(first.0.as_str());
    for part in others {
        text.push_str("/");
        text.push_str(part.0.as_str());
    }
}

/// Adds a space and a name.
pub fn push_name(label: &Ident, text: &mut GrowingText)
    ensures { Grows text.old text.new (text_of (space ∷ name label.now ∷ [])) }
{
    text.push_str(" ");
    text.push_str(label.0.as_str());
}

/// Adds the last part of a name.
pub fn push_last(parts: &[Ident], text: &mut GrowingText)
    ensures { Grows text.old text.new (text_of (name (ident (last_part parts.now)) ∷ [])) }
{
    if let [.., last] = parts {
        text.push_str(last.0.as_str());
    }
}
