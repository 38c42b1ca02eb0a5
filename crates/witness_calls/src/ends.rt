//! The versions between which values go.

use value_views::NamedFields;

/// The version that sends values, and the one that sees them.
#[derive(Drop)]
pub struct Ends<'e, 's, 'r> {
    pub sender: &'e NamedFields<'s>,
    pub receiver: &'e NamedFields<'r>,
}
