//! The number of a declaration by its canonical name.
ghost use Rattle.std.specs.Prelude.{◌≡◌, ◌++◌, [], ◌∷◌, map};
ghost use Rattle.declared_names.specs.Entries.{entry_of};
ghost use Rattle.declared_names.specs.Marks.{mark_of};
ghost use Rattle.name_resolution.specs.Resolution.{number_of, first_declared};

use crate::meaning::Resolved;
use aidl_base::Ident;
use declared_names::{Declarations, is_joined, with_parts};

/// The number of the first declaration whose canonical name is a front, which has this mark, with a back behind it.
pub fn number_of(
    declarations: &Declarations<'_>,
    mark: u64,
    front: &[Ident],
    back: &[Ident],
) -> Option<u32>
    requires mark { mark ≡ mark_of front.now }
    ensures { result ≡ number_of (map entry_of declarations.now) (front.now ++ back.now) }
{
    let found = declarations.as_slice();
    let mut at = declarations.first(with_parts(mark, back));
    'places: while let Some(place) = at {
        if is_joined(found[place].name.0.as_slice(), front, back) {
            return Some(place as u32);
        }
        at = declarations.next(place);
    }
    None
}

/// What a front with a back behind it is declared as.
pub fn declared(
    declarations: &Declarations<'_>,
    mark: u64,
    front: &[Ident],
    back: &[Ident],
) -> Option<Resolved>
    requires mark { mark ≡ mark_of front.now }
    ensures { result ≡ first_declared (map entry_of declarations.now)
        ((front.now ++ back.now) ∷ []) }
{
    match number_of(declarations, mark, front, back) {
        Some(number) => Some(Resolved::Declared(number)),
        None => None,
    }
}
