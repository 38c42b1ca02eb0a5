//! Which of two marks stands at fewer places.
ghost use Rattle.std.specs.Prelude.{◌≡◌};
ghost use Rattle.declared_names.specs.Times.{is_rarer};

use crate::table::Table;

/// Whether a mark stands at fewer places of a table than another one at those of another. Both are gone through only as
/// far as the shorter one goes.
pub fn is_rarer(marks: &Table, mark: u64, others: &Table, other: u64) -> bool
    ensures { result ≡ is_rarer mark marks.now other others.now }
{
    let mut at = marks.first(mark);
    let mut beside = others.first(other);
    'places: while let Some(place) = at {
        match beside {
            Some(next) => {
                at = marks.next(place);
                beside = others.next(next);
            }
            None => return false,
        }
    }
    beside.is_some()
}
