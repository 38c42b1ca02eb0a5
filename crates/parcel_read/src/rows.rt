//! Sequences of booleans, chars, ints and longs, whose elements are kept side by side.
ghost use Rattle.std.specs.Prelude.{◌≡◌, map, OnOk};
ghost use Rattle.aidl_values.specs.Data.{number, truth};
ghost use Rattle.aidl_values.specs.View.{datas, view};
ghost use Rattle.parcel_words.specs.Place.{left, is_inside, MovesOn};
ghost use Rattle.parcel_words.specs.Taken.{TakesIfMemory};
ghost use Rattle.parcel_read.specs.steps.Rows.{row_at};
ghost use Rattle.wire_model.specs.ReadOf.{char_data, read_as};

use aidl_base::Row;
use aidl_values::{Elements, Value};
use parcel_words::{ReadFault, Wire, WordReader, take_items};
use std::alloc::Global;

/// Reads so many elements of one type.
pub fn row_of<W: Packed>(
    alloc: Global,
    count: usize,
    from: &mut WordReader,
) -> Result<Value, ReadFault>
    ensures taken { TakesIfMemory view result
        (row_at (λ b. read_as W.seen (W.reading from.old.profile (is_inside from.old) b)) count
        (left from.old)) (left from.new) }
    ensures on { OnOk result (MovesOn from.old from.new) }
{
    match take_items::<W>(alloc, count, from) {
        Ok(row) => Ok(Value::Seq(W::elements(row))),
        Err(fault) => Err(fault),
    }
}

/// What is kept side by side: a truth value, or a number of one width.
pub trait Packed: Wire {
    ghost use Rattle.aidl_values.specs.Data.{Data};

    // an element as data
    ghost seen: { Self → Data };

    /// The elements of a row.
    fn elements(row: Row<Self>) -> Elements
        ensures { datas result ≡ map seen row };
}

impl Packed for bool {
    ghost use Rattle.aidl_values.specs.Data.{truth};

    ghost seen = { truth };

    fn elements(row: Row<bool>) -> Elements
        ensures { datas result ≡ map truth row }
    {
        Elements::Truths(row)
    }
}

impl Packed for u16 {
    ghost use Rattle.wire_model.specs.ReadOf.{char_data};

    ghost seen = { char_data };

    fn elements(row: Row<u16>) -> Elements
        ensures { datas result ≡ map char_data row }
    {
        Elements::Chars(row)
    }
}

impl Packed for i32 {
    ghost use Rattle.aidl_values.specs.Data.{number};

    ghost seen = { number };

    fn elements(row: Row<i32>) -> Elements
        ensures { datas result ≡ map number row }
    {
        Elements::Ints(row)
    }
}

impl Packed for i64 {
    ghost use Rattle.aidl_values.specs.Data.{number};

    ghost seen = { number };

    fn elements(row: Row<i64>) -> Elements
        ensures { datas result ≡ map number row }
    {
        Elements::Longs(row)
    }
}
