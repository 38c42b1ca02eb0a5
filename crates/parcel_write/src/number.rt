//! How a number is written, by its item.
ghost use Rattle.std.specs.Prelude.{◌≡◌, ◌≤◌, length};
ghost use Rattle.parcel_words.specs.Written.{with_bytes};
ghost use Rattle.parcel_write.specs.steps.PlanSpell.{number_by, SuitsNumber};

use marshal_plans::PlanItem;
use parcel_words::WordWriter;

/// Appends a number: two words of a long, and one of any other.
pub(crate) fn put_number(item: Option<PlanItem>, n: i64, to: &mut WordWriter)
    requires range { SuitsNumber item n }
    requires room { length (number_by item n) ≤ to.old.room }
    ensures { to.new ≡ with_bytes to.old (number_by item n) }
{
    match item {
        Some(PlanItem::Long) => to.long(n),
        _ => to.word(n as i32),
    }
}
