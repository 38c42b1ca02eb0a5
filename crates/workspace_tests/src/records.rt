//! Records and sequences as words: where a record ends, and what is put is taken again.

use crate::same::same;
use aidl_base::{Profile, Row, Text};
use parcel_words::{
    ReadFault, Wire, WordReader, WordWriter, law_sequence_taken_again, put_sequence,
    sequence_length, take_sequence,
};
use std::alloc::Global;
use std::test::Fail;

// A record of 12 bytes with the number 7 and the text `hi`, which passes its end.
const CROSSED: &[u8] = b"\x0c\0\0\0\x07\0\0\0\x02\0\0\0h\0i\0\0\0\0\0";

// A record of 12 bytes with the number 7, in it a record of 8 bytes, which passes its end; and the number 9.
const NESTED: &[u8] = b"\x0c\0\0\0\x07\0\0\0\x08\0\0\0\x09\0\0\0";

// Size words, and what entering a record with them answers.
const SIZES: [(&[u8], Result<(), ReadFault>); 5] = [
    (b"\x03\0\0\0", Err(ReadFault::BadValue)),
    (b"\x04\0\0\0", Ok(())),
    (b"\x06\0\0\0", Err(ReadFault::BadValue)),
    (b"\xfc\xff\xff\x7f", Err(ReadFault::NotEnough)),
    (b"\x08\0\0\0\x07\0\0\0", Ok(())),
];

const ITEMS: [i32; 2] = [5, -1];

#[test]
fn a_record_ends_where_its_size_says(rt: HostRuntime) -> Result<(), Fail> {
    let mut reader = WordReader::new(Profile::Strict, CROSSED);
    reader.enter()?;
    same(&rt, reader.at_end(), false);
    same(&rt, reader.word(), Ok(7));
    let text = reader.text(rt.alloc(), false);
    same(&rt, text.err(), Some(ReadFault::BadValue));
    same(&rt, reader.position(), 8);
    same(&rt, reader.word(), Ok(2));
    same(&rt, reader.at_end(), true);
    same(&rt, reader.word(), Err(ReadFault::BadValue));
    Ok(())
}

#[test]
fn a_record_that_passes_the_one_around_it_is_refused(rt: HostRuntime) -> Result<(), Fail> {
    let mut reader = WordReader::new(Profile::Strict, NESTED);
    reader.enter()?;
    same(&rt, reader.word(), Ok(7));
    let entered = reader.enter();
    assert!(rt; entered == Err(ReadFault::BadValue));
    same(&rt, reader.position(), 8);
    reader.leave();
    same(&rt, reader.position(), 12);
    same(&rt, reader.word(), Ok(9));
    same(&rt, reader.word(), Err(ReadFault::NotEnough));
    Ok(())
}

#[test]
fn a_size_counts_whole_words_that_are_there(rt: HostRuntime) {
    for (bytes, wanted) in SIZES {
        let entered = WordReader::new(Profile::Strict, bytes).enter();
        same(&rt, entered, wanted);
    }
}

fn put_items(alloc: Global) -> Result<Vec<u8>, ReadFault> {
    let mut writer = WordWriter::with_room(alloc, 12)?;
    put_sequence(&ITEMS, &mut writer);
    Ok(writer.finish())
}

fn take_items(alloc: Global, bytes: &[u8]) -> Result<Option<Row<i32>>, ReadFault> {
    take_sequence::<i32>(alloc, false, &mut WordReader::new(Profile::Strict, bytes))
}

#[test]
fn items_are_put_and_taken(rt: HostRuntime) -> Result<(), Fail> {
    same(&rt, sequence_length(&ITEMS), 12);
    law_sequence_taken_again(&ITEMS);
    let bytes = put_items(rt.alloc())?;
    let wanted = b"\x02\0\0\0\x05\0\0\0\xff\xff\xff\xff".as_slice();
    same(&rt, bytes.as_slice(), wanted);
    let taken = take_items(rt.alloc(), bytes.as_slice())?.ok_or("null")?;
    same(&rt, taken.as_slice(), ITEMS.as_slice());
    Ok(())
}

// Each kind of item once, one after the other.
fn put_kinds(alloc: Global) -> Result<Vec<u8>, ReadFault> {
    let mut writer = WordWriter::with_room(alloc, 44)?;
    true.put(&mut writer);
    (-128_i8).put(&mut writer);
    0xffff_u16.put(&mut writer);
    5_i32.put(&mut writer);
    (-1_i64).put(&mut writer);
    writer.text(None);
    writer.raw(b"\x01\x02\x03");
    Ok(writer.finish())
}

#[test]
fn each_kind_of_item_is_put_and_taken(rt: HostRuntime) -> Result<(), Fail> {
    let alloc = rt.alloc();
    let bytes = put_kinds(alloc)?;
    let mut reader = WordReader::new(Profile::Strict, bytes.as_slice());
    same(&rt, bool::take(alloc, &mut reader), Ok(true));
    same(&rt, i8::take(alloc, &mut reader), Ok(-128));
    same(&rt, u16::take(alloc, &mut reader), Ok(0xffff));
    same(&rt, i32::take(alloc, &mut reader), Ok(5));
    same(&rt, i64::take(alloc, &mut reader), Ok(-1));
    same(&rt, reader.text(alloc, true)?.is_none(), true);
    same(&rt, reader.raw(usize::MAX), Err(ReadFault::NotEnough));
    same(&rt, reader.raw(3), Ok(b"\x01\x02\x03".as_slice()));
    same(&rt, reader.position(), 32);
    let text = Text::take(alloc, &mut reader);
    same(&rt, text.err(), Some(ReadFault::NotEnough));
    Ok(())
}
