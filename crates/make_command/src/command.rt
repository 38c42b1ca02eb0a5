//! The command `make`: two trees and calls between them, which are written, checked, judged and run.
ghost use Rattle.std.specs.Prelude.{◌≡◌, ℕ, IfOk, List, map};
ghost use Rattle.aidl_outside.specs.Causes.{StoreCause};
ghost use Rattle.aidl_outside.specs.Faults.{FailedIn, IfStoreFailed, writing};
ghost use Rattle.aidl_outside.specs.Writes.{Writes};
ghost use Rattle.tool_frame.specs.Outside.{seen_of};
ghost use Rattle.tool_frame.specs.steps.Carried.{carried_of};
ghost use Rattle.make_command.specs.Making.{file_write, makes};
ghost use Rattle.make_command.specs.steps.Laying.{IsLaid, TakesLaid, TakesMade, laid_writes, tree_writes};
ghost use Rattle.api_versions.specs.Writes.{Left};
ghost use Rattle.run_command.specs.steps.Running.{RanSome, TakesEarly};
ghost use Rattle.tool_frame.specs.Course.{Course};
ghost use Rattle.tool_frame.specs.Ended.{Ended};
ghost use Rattle.tool_frame.specs.Exit.{number_of};
ghost use Rattle.tree_make.specs.Made.{file_seen};

use crate::making::run_made;
use aidl_base::{OutOfMemory, Row, SourceFile};
use aidl_outside::{Link, Sink, Store, StoreFault, path_below};
use run_command::Prepared;
use std::alloc::Global;
use tool_frame::{Early, Exit, print};
use tree_commands::check_both;

/// Runs `make N OUT`: writes two trees of N parcelables and N interfaces each and a calls file, checks both trees, judges the newer one
/// after the older one, and runs the calls from the newer to the older one. The answer is the exit.
pub fn make<S: Store, K: Sink, L: Link>(
    alloc: Global,
    count: u32,
    out: &str,
    store: &mut S,
    sink: &mut K,
    link: &mut L,
) -> Exit
    ensures { let seen = seen_of S.Store K.Sink L.Link in
        Ended (makes count out.now)
        (seen store.old sink.old link.old) (seen store.new sink.new link.new) (number_of result) }
{
    match lay(alloc, count, out) {
        Ok(laid) => make_laid(alloc, laid, store, sink, link),
        Err(_) => Exit::OutOfMemory,
    }
}

/// What is made, and where below OUT it is to stand: the path of the calls file, and the roots of both trees, to which the paths of
/// their files are relative.
#[derive(Drop)]
pub struct Laid {
    pub calls_path: String,
    pub calls: Row<u8>,
    pub new_root: String,
    pub news: Row<SourceFile>,
    pub old_root: String,
    pub olds: Row<SourceFile>,
}

// Makes the texts.
fn lay(alloc: Global, count: u32, out: &str) -> Result<Laid, OutOfMemory>
    ensures { IfOk result (IsLaid count out.now) }
{
    let calls_path = path_below(alloc, out, "calls")?;
    let new_root = path_below(alloc, out, "new")?;
    let old_root = path_below(alloc, out, "old")?;
    let made = tree_make::make(alloc, count)?;
    Ok(Laid {
        calls_path,
        calls: made.calls,
        new_root,
        news: made.new,
        old_root,
        olds: made.old,
    })
}

// Writes what is made; then checks the trees, and runs the calls.
fn make_laid<S: Store, K: Sink, L: Link>(
    alloc: Global,
    laid: Laid,
    store: &mut S,
    sink: &mut K,
    link: &mut L,
) -> Exit
    ensures { let seen = seen_of S.Store K.Sink L.Link in (n : ℕ) (out : List ℕ) → IsLaid n out laid
        → Ended (makes n out)
        (seen store.old sink.old link.old) (seen store.new sink.new link.new) (number_of result) }
{
    match write_laid(alloc, &laid, store) {
        Ok(()) => run_laid(alloc, laid, sink, link),
        Err(StoreFault::Failed) => Exit::StoreFailed,
        Err(StoreFault::OutOfMemory) => Exit::OutOfMemory,
    }
}

// Writes the calls file, and then both trees.
fn write_laid<S: Store>(alloc: Global, laid: &Laid, store: &mut S) -> Result<(), StoreFault>
    ensures wrote { Left (laid_writes laid.now)
        (S.kept store.old) (S.kept store.new) (S.fault_record store.new) result }
    ensures cause { StoreCause (S.fault_record store.old) (S.fault_record store.new) result }
{
    let path = laid.calls_path.as_str();
    let calls = laid.calls.as_slice();
    match store.write(alloc, path, calls) {
        Ok(()) => write_trees(alloc, laid, store),
        Err(fault) => Err(fault),
    }
}

// Writes the newer tree, and then the older one.
fn write_trees<S: Store>(alloc: Global, laid: &Laid, store: &mut S) -> Result<(), StoreFault>
    ensures wrote { Left (tree_writes laid.now)
        (S.kept store.old) (S.kept store.new) (S.fault_record store.new) result }
    ensures cause { StoreCause (S.fault_record store.old) (S.fault_record store.new) result }
{
    let new_root = laid.new_root.as_str();
    let news = laid.news.as_slice();
    let old_root = laid.old_root.as_str();
    let olds = laid.olds.as_slice();
    match write_tree(alloc, new_root, news, store) {
        Ok(()) => write_tree(alloc, old_root, olds, store),
        Err(fault) => Err(fault),
    }
}

// Writes the files of a tree in their order, up to the first whose write fails.
fn write_tree<S: Store>(
    alloc: Global,
    root: &str,
    files: &[SourceFile],
    store: &mut S,
) -> Result<(), StoreFault>
    ensures wrote { Left (map (file_write root.now) (map file_seen files.now))
        (S.kept store.old) (S.kept store.new) (S.fault_record store.new) result }
    ensures cause { StoreCause (S.fault_record store.old) (S.fault_record store.new) result }
{
    for file in files {
        match write_file(alloc, root, file, store) {
            Ok(()) => {}
            Err(fault) => return Err(fault),
        }
    }
    Ok(())
}

// Writes a file of a tree.
fn write_file<S: Store>(
    alloc: Global,
    root: &str,
    file: &SourceFile,
    store: &mut S,
) -> Result<(), StoreFault>
    ensures written { let write = file_write root.now (file_seen file.now) in
        Writes (S.kept store.old) (S.kept store.new) write.path write.bytes result }
    ensures cause { StoreCause (S.fault_record store.old) (S.fault_record store.new) result }
    ensures failed { let write = file_write root.now (file_seen file.now) in
        IfStoreFailed result
        (FailedIn (S.fault_record store.new) (λ call. call ≡ writing write.path)) }
{
    let relative = file.path.as_str();
    let bytes = file.bytes.as_slice();
    match path_below(alloc, root, relative) {
        Ok(path) => store.write(alloc, path.as_str(), bytes),
        Err(_) => Err(StoreFault::OutOfMemory),
    }
}

// Checks what was laid out, and runs the calls, or prints how the run ends before that.
fn run_laid<K: Sink, L: Link>(alloc: Global, laid: Laid, sink: &mut K, link: &mut L) -> Exit
    ensures { let seen = carried_of K.Sink L.Link in
        RanSome (TakesLaid laid)
        (seen sink.old link.old) (seen sink.new link.new) (number_of result) }
{
    match check_laid(alloc, laid) {
        Ok(run) => {
            let calls = run.text.as_slice();
            run_made(alloc, &run.server, &run.client, calls, sink, link)
        }
        Err(early) => print_early(alloc, early, sink, link),
    }
}

// Prints how the run ends early.
#[tactic(auto, using(run_command::proofs::lemmas::Takes::printed_early))]
fn print_early<K: Sink, L: Link>(alloc: Global, early: Early, sink: &mut K, link: &L) -> Exit
    ensures { let seen = carried_of K.Sink L.Link in
        RanSome (TakesEarly early)
        (seen sink.old link.now) (seen sink.new link.now) (number_of result) }
{
    print(alloc, Err(early), sink)
}

// The schemas of both trees, or what is printed of the first that isn't checked: the newer one comes first.
fn check_laid(alloc: Global, laid: Laid) -> Result<Prepared, Early>
    ensures { (course : Course) → TakesMade result course → TakesLaid laid course }
{
    let Laid {
        calls,
        new_root,
        news,
        old_root,
        olds,
        ..
    } = laid;
    let newer = new_root.as_str();
    let older = old_root.as_str();
    let (client, server) = check_both(alloc, newer, news, older, olds)?;
    Ok(Prepared {
        text: calls.into_vec(),
        client,
        server,
    })
}
