//! The command `run`: the calls of a file between a client's tree and a server's.
ghost use Rattle.std.specs.Prelude.{◌≡◌};
ghost use Rattle.aidl_outside.specs.Told.{Tells};
ghost use Rattle.tool_frame.specs.Due.{AsksFileThen, AsksTreeThen};
ghost use Rattle.tool_frame.specs.Outside.{seen_of};
ghost use Rattle.tool_frame.specs.steps.Carried.{carried_of};
ghost use Rattle.run_command.specs.Running.{RunTakes, run_course};
ghost use Rattle.run_command.specs.steps.Preparing.{IsPrepared, IsUnprepared};
ghost use Rattle.run_command.specs.steps.Running.{RanSome};
ghost use Rattle.run_command.specs.Tags.{EndsProjected, ProjectsChecked};
ghost use Rattle.run_command.specs.CallLines.{lines_of};
ghost use Rattle.run_command.specs.Projected.{projected_text};
ghost use Rattle.tool_frame.specs.Asks.{AsksTree};
ghost use Rattle.tool_frame.specs.Ended.{Ended};
ghost use Rattle.tool_frame.specs.Exit.{number_of};
ghost use Rattle.tool_frame.specs.Halts.{Gets};
ghost use Rattle.tool_frame.specs.Meaning.{carries_by};
ghost use Rattle.tool_frame.specs.Seen.{store_seen};

use crate::cutting::lines_loaded;
use crate::running::run_trees;
use crate::session::Session;
use aidl_base::{LimitName, Profile};
use aidl_outside::{Link, Sink, Store};
use aidl_schema::Schema;
use call_scripts::law_script_fits;
use std::alloc::Global;
use tool_frame::{Exit, Halt, end, load_existing};
use tool_words::RunWords;
use tree_commands::{check_both, load_both};
use wire_model::law_call_none;

/// Runs `run [--trace] [--lenient] CLIENT SERVER CALLS`. The answer is the exit.
pub fn run<S: Store, K: Sink, L: Link>(
    alloc: Global,
    asked: RunWords<'_>,
    store: &mut S,
    sink: &mut K,
    link: &mut L,
) -> Exit
    ensures ends { let seen = seen_of S.Store K.Sink L.Link in let asked = asked.entry in
        Ended (carries_by
        (AsksFileThen asked.calls.now
        (AsksTreeThen asked.client.now (AsksTree asked.server.now)))
        (RunTakes asked.profile asked.trace asked.client.now asked.server.now asked.calls.now))
        (seen store.old sink.old link.old) (seen store.new sink.new link.new) (number_of result) }
    // Between two checked trees of which one may follow the other, over a faithful link, a run that comes to a verdict ends with 0, and
    // has put exactly what its lines are projected to.
    ensures projected { let seen = seen_of S.Store K.Sink L.Link in let asked = asked.entry in
        Tells (S.kept store.old)
        (ProjectsChecked asked.profile asked.trace
        asked.client.now asked.server.now asked.calls.now
        (seen store.old sink.old link.old) (seen store.new sink.new link.new) (number_of result)) }
{
    match prepare(alloc, asked, store) {
        Ok(run) => run_both(alloc, asked.profile, asked.trace, &run, sink, link),
        Err(halt) => end(alloc, Err(halt), sink),
    }
}

/// What is run: the text of the calls file, and the schemas of both trees.
#[derive(Drop)]
pub struct Prepared {
    pub text: Vec<u8>,
    pub client: Schema,
    pub server: Schema,
}

// What is run: the calls file is looked for first, then the files of both trees, and then what they hold.
fn prepare<S: Store>(alloc: Global, asked: RunWords<'_>, store: &mut S) -> Result<Prepared, Halt>
    ensures { let seen = store_seen S.Store in let asked = asked.entry in
        Gets (AsksFileThen asked.calls.now
        (AsksTreeThen asked.client.now (AsksTree asked.server.now)))
        (IsPrepared asked.client.now asked.server.now asked.calls.now)
        (IsUnprepared asked.client.now asked.server.now asked.calls.now)
        (seen store.old) (seen store.new) result }
{
    let file = load_existing(alloc, LimitName::TextBytes, asked.calls, store)?;
    let (olds, news) = load_both(alloc, asked.client, asked.server, store)?;
    let text = lines_loaded(alloc, file)?;
    let (client, server) = check_both(alloc, asked.client, olds, asked.server, news)?;
    Ok(Prepared {
        text,
        client,
        server,
    })
}

// Runs the calls between two schemas.
fn run_both<K: Sink, L: Link>(
    alloc: Global,
    profile: Profile,
    trace: bool,
    run: &Prepared,
    sink: &mut K,
    link: &mut L,
) -> Exit
    ensures ran { let seen = carried_of K.Sink L.Link in
        let A = run.now.client.decls in let B = run.now.server.decls in
        RanSome (λ course. course ≡ run_course profile A B trace run.now.text.items)
        (seen sink.old link.old) (seen sink.new link.new) (number_of result) }
    ensures projected { let seen = carried_of K.Sink L.Link in
        let A = run.now.client.decls in let B = run.now.server.decls in
        EndsProjected A B (projected_text profile A B trace 1 (lines_of run.now.text.items))
        (seen sink.old link.old) (seen sink.new link.new) (number_of result) }
{
    law_call_none(&run.client, &run.server);
    law_script_fits(&run.client, &run.server);
    let calls = run.text.as_slice();
    let session = Session {
        profile,
        client: &run.client,
        server: &run.server,
        trace,
    };
    run_trees(alloc, &session, calls, sink, link)
}
