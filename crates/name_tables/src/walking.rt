//! The first member of a name, found one after the other.
ghost use Rattle.std.specs.Prelude.{◌≡◌};
ghost use Rattle.aidl_schema.specs.Same.{same_text};
ghost use Rattle.aidl_schema.specs.Names.{bytes_of};
ghost use Rattle.name_tables.specs.Places.{place_in};

use crate::called::Called;
use aidl_base::Ident;

/// The first position of a name, which is in UTF-8. The members are gone through one by one.
pub fn first_place<M: Called>(members: &[M], name: &str) -> Option<usize>
    ensures { result ≡ place_in M.called name.now members.now }
{
    for (i, member) in members.iter().enumerate() {
        if is_called(member.name(), name) {
            return Some(i);
        }
    }
    None
}

// Whether a text is the name, byte by byte.
fn is_called(name: &Ident, text: &str) -> bool
    ensures { result ≡ same_text (bytes_of name.now) text.now }
{
    name.0.as_str() == text
}
