//! Identifiers and dotted names as values.
ghost use Rattle.std.specs.Prelude.{◌≡◌, ◌∷◌, IfOk};
ghost use Rattle.aidl_base.specs.Names.{dotted};

use crate::OutOfMemory;
use crate::parts::Parts;
use crate::text::Text;
use std::alloc::Global;

/// An identifier.
#[derive(Debug)]
pub struct Ident(pub Text);

impl Drop for Ident {
    fn drop(self) {
        let Ident(_) = self;
    }
}

/// Identifiers joined by dots, as the name of a package or of a declaration.
pub struct DottedName(pub Parts);

impl Drop for DottedName {
    fn drop(self) {
        let DottedName(_) = self;
    }
}

/// The parts of a name joined by dots, as text.
pub fn joined_by_dots(alloc: Global, parts: &[Ident]) -> Result<Text, OutOfMemory>
    ensures { IfOk result (λ text. text ≡ dotted parts.now) }
{
    match parts {
        [] => Ok(Text::empty()),
        [first, others @ ..] => joined(alloc, first, others),
    }
}

fn joined(alloc: Global, first: &Ident, others: &[Ident]) -> Result<Text, OutOfMemory>
    ensures { IfOk result (λ text. text ≡ dotted (first.now ∷ others.now)) }
{
    let mut text = String::from_str(alloc, first.0.as_str())?;
    for part in others {
        text.push('.')?;
        text.push_str(part.0.as_str())?;
    }
    Ok(Text::from_string(text))
}
