//! Calls of a store as data, with what each answers as text.

use crate::same::same;
use aidl_outside::Store;
use std::fmt::Debug;
use std::fs::Files;
use std::process::Abort;

/// A call of a store. Each path stands behind the root of all.
#[derive(Drop)]
pub enum Call<'a> {
    /// Lists the files below a path.
    List(&'a str),
    /// Reads at most so many bytes, and one more.
    Read(&'a str, u32),
    Write(&'a str, &'a [u8]),
    /// Tells how many calls failed so far.
    Faults,
    /// No call: makes a symbolic link to a target.
    Link(&'a str, &'a str),
}

/// Makes calls, and compares the answer of each.
pub fn answers<R: Abort + AllocGlobal + Files, S: Store>(
    rt: &R,
    store: &mut S,
    root: &str,
    calls: &[(Call<'_>, &str)],
) {
    for (call, wanted) in calls {
        let found = answer(rt, store, root, call);
        same(rt, found.as_str(), *wanted);
    }
}

fn answer<R: Abort + AllocGlobal + Files, S: Store>(
    rt: &R,
    store: &mut S,
    root: &str,
    call: &Call<'_>,
) -> String {
    match call {
        Call::List(path) => listed(rt, store, behind(rt, root, path).as_str()),
        Call::Read(path, most) => read(rt, store, behind(rt, root, path).as_str(), *most),
        Call::Write(path, bytes) => written(rt, store, behind(rt, root, path).as_str(), bytes),
        Call::Faults => text(rt, store.faults()),
        Call::Link(path, target) => text(rt, rt.symlink(target, behind(rt, root, path).as_str())),
    }
}

fn behind<R: Abort + AllocGlobal>(rt: &R, root: &str, path: &str) -> String {
    format!(in rt.alloc(); "{root}{path}").expect(rt, "memory")
}

fn text<R: Abort + AllocGlobal, T: Debug + Drop>(rt: &R, answer: T) -> String {
    format!(in rt.alloc(); "{answer:?}").expect(rt, "memory")
}

fn listed<R: Abort + AllocGlobal, S: Store>(rt: &R, store: &mut S, path: &str) -> String {
    text(rt, store.list(rt.alloc(), path))
}

fn read<R: Abort + AllocGlobal, S: Store>(rt: &R, store: &mut S, path: &str, most: u32) -> String {
    text(rt, store.read(rt.alloc(), path, most as usize))
}

fn written<R: Abort + AllocGlobal, S: Store>(
    rt: &R,
    store: &mut S,
    path: &str,
    bytes: &[u8],
) -> String {
    text(rt, store.write(rt.alloc(), path, bytes))
}
