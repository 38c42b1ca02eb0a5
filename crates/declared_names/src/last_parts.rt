//! The last part of a name.
ghost use Rattle.std.specs.Prelude.{◌≡◌, ◌∷◌, []};
ghost use Rattle.declared_names.specs.Marks.{mark_of_last};
ghost use Rattle.declared_names.specs.Names.{last, same};

use crate::marking::with_parts;
use crate::sameness::same_part;
use aidl_base::Ident;
use aidl_syntax::DottedTree;

/// Whether the last part of a name is this one.
pub fn ends_in(name: &[Ident], part: &Ident) -> bool
    ensures { result ≡ same (last name.now) (part.now ∷ []) }
{
    match name {
        [.., last] => same_part(last, part),
        [] => false,
    }
}

/// The last part of a name, alone.
pub fn last(name: &[Ident]) -> &[Ident]
    ensures { result.now ≡ last name.now }
{
    if name.is_empty() {
        return name;
    }
    let (_, end) = name.split_at(name.len() - 1);
    end
}

/// The mark of the last part of an import.
pub fn last_mark(import: &DottedTree) -> u64
    ensures { result ≡ mark_of_last import.now }
{
    with_parts(0, last(import.name.0.as_slice()))
}
