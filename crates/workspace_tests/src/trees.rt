//! The call that reads a tree, over a store in memory with ample memory.

use crate::same::{same, shows};
use aidl_base::Row;
use aidl_outside::{Store, StoreFault};
use memory_outside::MemStore;
use std::process::Abort;
use std::test::Fail;
use tool_frame::load_tree;

// Loads the tree below a root, and compares the answer as text.
fn loads<R: Abort + AllocGlobal>(rt: &R, root: &str, store: &mut MemStore, wanted: &str) {
    let tree = load_tree(rt.alloc(), root, store).expect(rt, "a tree");
    shows(rt, tree, wanted);
}

#[test]
fn a_tree_has_the_sources_below_its_root(rt: HostRuntime) -> Result<(), Fail> {
    let alloc = rt.alloc();
    let mut store = MemStore::new(alloc, Row::new(alloc), Row::new(alloc))?;
    same(&rt, store.write(alloc, "t/a/B.aidl", b"1"), Ok(()));
    same(&rt, store.write(alloc, "t/a.aidl", b"23"), Ok(()));
    same(&rt, store.write(alloc, "t/x.txt", b"4"), Ok(()));
    same(&rt, store.write(alloc, "u/c.aidl", b"5"), Ok(()));
    loads(
        &rt,
        "t",
        &mut store,
        "Ok(Row { items: [SourceFile { path: \"a.aidl\", bytes: Row { items: [50, 51] } }, SourceFile { path: \"a/B.aidl\", bytes: Row { items: [49] } }] })",
    );
    loads(&rt, "missing", &mut store, "Ok(Row { items: [] })");
    let mut stopping = MemStore::stopping(alloc, store.into_files(), 1)?;
    let failed = load_tree(alloc, "t", &mut stopping);
    same(&rt, failed.err(), Some(StoreFault::Failed));
    Ok(())
}

// Writes so many small files of a tree.
fn write_files<R: Abort + AllocGlobal>(rt: &R, store: &mut MemStore, count: usize) {
    for number in 0..count {
        let path = format!(in rt.alloc(); "t/{number}.aidl").expect(rt, "memory");
        same(rt, store.write(rt.alloc(), path.as_str(), b""), Ok(()));
    }
}

#[test]
fn a_tree_may_pass_two_limits(rt: HostRuntime) -> Result<(), Fail> {
    let alloc = rt.alloc();
    let mut store = MemStore::new(alloc, Row::new(alloc), Row::new(alloc))?;
    write_files(&rt, &mut store, 4095);
    // one byte more than a file may have
    let long = Vec::from_elem(alloc, 0, 262_145)?;
    same(
        &rt,
        store.write(alloc, "t/long.aidl", long.as_slice()),
        Ok(()),
    );
    loads(&rt, "t", &mut store, "Err(Limit { which: FileBytes })");
    same(&rt, store.write(alloc, "t/more.aidl", b""), Ok(()));
    loads(&rt, "t", &mut store, "Err(Limit { which: Files })");
    Ok(())
}
