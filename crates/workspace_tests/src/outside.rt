//! The objects in memory with ample memory: each call once, and the calls that fail by their numbers.

use crate::same::{same, shows};
use crate::stores::{Call, answers};
use aidl_base::{OutOfMemory, Row};
use aidl_outside::{Carried, CarryFault, Link, Sink, SinkFault, Way};
use host_outside::PassLink;
use memory_outside::{Edit, EditKind, MemSink, MemStore, RecordLink, TamperLink};
use std::alloc::Global;
use std::process::Abort;
use std::test::Fail;

fn numbers(alloc: Global, given: &[u64]) -> Result<Row<u64>, OutOfMemory> {
    Ok(Row::from_vec(Vec::from_slice(alloc, given)?))
}

const FAILING: [(Call<'static>, &str); 8] = [
    (Call::Write("d/b", b"123"), "Ok(())"),
    (Call::Write("d/a", b"4"), "Ok(())"),
    (Call::List("d"), "Ok([\"a\", \"b\"])"),
    (Call::List("d"), "Err(Failed)"),
    (Call::Read("d/b", 1), "Ok(Some([49, 50]))"),
    (Call::Write("d/b", b"56789"), "Err(Failed)"),
    (Call::Read("d/b", 9), "Ok(Some([53, 54]))"),
    (Call::Faults, "2"),
];

#[test]
fn a_store_fails_at_its_numbers_and_keeps_half_of_a_write(rt: HostRuntime) -> Result<(), Fail> {
    let alloc = rt.alloc();
    let failing = numbers(alloc, &[3, 5])?;
    let mut store = MemStore::new(alloc, Row::new(alloc), failing)?;
    answers(&rt, &mut store, "", &FAILING);
    same(&rt, store.files().len(), 2);
    same(&rt, store.into_files().len(), 2);
    Ok(())
}

#[test]
fn a_sink_fails_at_its_numbers_and_adds_half(rt: HostRuntime) -> Result<(), Fail> {
    let alloc = rt.alloc();
    let mut sink = MemSink::new(alloc, numbers(alloc, &[1])?)?;
    same(&rt, sink.put(alloc, b"ab"), Ok(()));
    same(&rt, sink.put(alloc, b"cdefg"), Err(SinkFault::Failed));
    same(&rt, sink.put(alloc, b"h"), Ok(()));
    same(&rt, sink.bytes(), b"abcdh".as_slice());
    same(&rt, sink.faults(), 1);
    Ok(())
}

const STOPPING: [(Call<'static>, &str); 5] = [
    (Call::Write("a", b"12345"), "Ok(())"),
    (Call::Write("b", b"123"), "Err(Failed)"),
    (Call::List(""), "Err(Failed)"),
    (Call::Read("a", 9), "Err(Failed)"),
    (Call::Faults, "3"),
];

#[test]
fn a_store_stops_at_a_call_and_every_later_one(rt: HostRuntime) -> Result<(), Fail> {
    let alloc = rt.alloc();
    let mut store = MemStore::stopping(alloc, Row::new(alloc), 1)?;
    answers(&rt, &mut store, "", &STOPPING);
    shows(
        &rt,
        store.files(),
        "[SourceFile { path: \"a\", bytes: Row { items: [49, 50, 51, 52, 53] } }, SourceFile { path: \"b\", bytes: Row { items: [49] } }]",
    );
    Ok(())
}

// Carries a parcel, and compares what is delivered.
fn carries<R: Abort + AllocGlobal, L: Link>(
    rt: &R,
    link: &mut L,
    way: Way,
    sent: &[u8],
    wanted: Result<&[u8], CarryFault>,
) {
    match link.carry(rt.alloc(), way, 7, sent) {
        Ok(delivered) => same(rt, Ok(delivered.as_slice()), wanted),
        Err(fault) => same(rt, Err(fault), wanted),
    }
}

// Compares what was sent and delivered so far.
fn logged(rt: &impl Abort, log: &[Carried], wanted: &[(&[u8], &[u8])]) {
    same(rt, log.len(), wanted.len());
    for (carried, (sent, delivered)) in log.iter().zip(wanted) {
        same(rt, carried.sent.as_slice(), *sent);
        same(rt, carried.delivered.as_slice(), *delivered);
    }
}

#[test]
fn a_passing_link_delivers_what_was_sent(rt: HostRuntime) {
    let mut link = PassLink::new();
    carries(&rt, &mut link, Way::Request, b"ab", Ok(b"ab"));
    same(&rt, link.faults(), 0);
}

#[test]
fn a_recording_link_delivers_what_was_sent(rt: HostRuntime) -> Result<(), Fail> {
    let mut link = RecordLink::new(rt.alloc(), numbers(rt.alloc(), &[1])?)?;
    carries(&rt, &mut link, Way::Request, b"ab", Ok(b"ab"));
    carries(&rt, &mut link, Way::Reply, b"cd", Err(CarryFault::Failed));
    logged(&rt, link.log(), &[(b"ab", b"ab")]);
    same(&rt, link.faults(), 1);
    Ok(())
}

// Carry 0 is cut and added to, carry 1 has a byte set and another one past its end.
fn edits(alloc: Global) -> Result<Row<Edit>, OutOfMemory> {
    let more = Row::from_vec(Vec::from_slice(alloc, b"xy")?);
    let edits = [
        edit(0, EditKind::Cut(1)),
        edit(1, EditKind::Set { at: 0, byte: 7 }),
        edit(1, EditKind::Set { at: 2, byte: 8 }),
        edit(0, EditKind::Append(more)),
    ];
    Ok(Row::from_vec(Vec::from_array(alloc, edits)?))
}

fn edit(carry: u64, kind: EditKind) -> Edit {
    Edit { carry, kind }
}

// Carry 2 fails.
#[test]
fn a_tampering_link_applies_the_edits_of_each_carry(rt: HostRuntime) -> Result<(), Fail> {
    let alloc = rt.alloc();
    let mut link = TamperLink::new(alloc, edits(alloc)?, numbers(alloc, &[2])?)?;
    carries(&rt, &mut link, Way::Request, b"ab", Ok(b"axy"));
    carries(&rt, &mut link, Way::Reply, b"cd", Ok(b"\x07d"));
    carries(&rt, &mut link, Way::Request, b"ef", Err(CarryFault::Failed));
    logged(&rt, link.log(), &[(b"ab", b"axy"), (b"cd", b"\x07d")]);
    Ok(())
}
