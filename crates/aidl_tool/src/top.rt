//! The whole program: its words to a command, and the command to an exit status.
ghost use Rattle.std.specs.Prelude.{◌≡◌, Some, map, string_bytes};
ghost use Rattle.aidl_outside.specs.Told.{Tells};
ghost use Rattle.tool_words.specs.Rows as table;
ghost use Rattle.tool_words.specs.Seen.{command_seen};
ghost use Rattle.tool_frame.specs.Outside.{seen_of};
ghost use Rattle.aidl_tool.specs.Headline.{Headline};
ghost use Rattle.aidl_tool.specs.Meant.{meaning, meant};
ghost use Rattle.tool_frame.specs.Ended.{Ran};
ghost use Rattle.tool_frame.specs.Exit.{number_of};

use aidl_outside::{Link, Sink, Store};
use ask_command::ask;
use make_command::make;
use parcel_commands::{Task, run_task};
use replay_command::replay;
use run_command::run;
use std::alloc::Global;
use tool_frame::{Exit, refuse};
use tool_words::{Command, command_of};
use tree_commands::{check, judge};
use version_commands::{dump, freeze, rehash, verify};
use witness_command::witness;

/// Runs the program on its words, those after the program's own name. The answer is the exit status, `Exit` lists them all.
pub fn aidl<S: Store, K: Sink, L: Link>(
    alloc: Global,
    words: &[String],
    store: &mut S,
    sink: &mut K,
    link: &mut L,
) -> u8
    // Exits, counts, and what was printed, written and carried.
    ensures ran { let seen = seen_of S.Store K.Sink L.Link in
        Ran (meant (map string_bytes words.now))
        (seen store.old sink.old link.old) (seen store.new sink.new link.new) result }
    // What the judge accepts, every call keeps.
    ensures headline { let seen = seen_of S.Store K.Sink L.Link in
        Tells (S.kept store.old)
        (Headline (table.command_of (map string_bytes words.now))
        (seen store.old sink.old link.old) (seen store.new sink.new link.new) result) }
{
    run_words(alloc, words, store, sink, link).status()
}

// Runs the command that the words are, or refuses them.
fn run_words<S: Store, K: Sink, L: Link>(
    alloc: Global,
    words: &[String],
    store: &mut S,
    sink: &mut K,
    link: &mut L,
) -> Exit
    ensures ran { let seen = seen_of S.Store K.Sink L.Link in
        Ran (meant (map string_bytes words.now))
        (seen store.old sink.old link.old) (seen store.new sink.new link.new) (number_of result) }
    ensures headline { let seen = seen_of S.Store K.Sink L.Link in
        Tells (S.kept store.old)
        (Headline (table.command_of (map string_bytes words.now))
        (seen store.old sink.old link.old) (seen store.new sink.new link.new) (number_of result)) }
{
    match command_of(words) {
        None => refuse(alloc, sink),
        Some(command) => carry_out(alloc, command, store, sink, link),
    }
}

// Runs a command.
#[tactic(auto, using(crate::proofs::Kept::told_anyway))]
fn carry_out<S: Store, K: Sink, L: Link>(
    alloc: Global,
    command: Command<'_>,
    store: &mut S,
    sink: &mut K,
    link: &mut L,
) -> Exit
    ensures ran { let seen = seen_of S.Store K.Sink L.Link in
        Ran (meaning (command_seen command.entry))
        (seen store.old sink.old link.old) (seen store.new sink.new link.new) (number_of result) }
    ensures headline { let seen = seen_of S.Store K.Sink L.Link in
        Tells (S.kept store.old)
        (Headline (Some (command_seen command.entry))
        (seen store.old sink.old link.old) (seen store.new sink.new link.new) (number_of result)) }
{
    match command {
        Command::Decode { profile, file } => run_task(
            alloc,
            Task::Decode(profile),
            file,
            store,
            sink,
        ),
        Command::Encode { file } => run_task(alloc, Task::Encode, file, store, sink),
        Command::Check { tree } => check(alloc, tree, store, sink),
        Command::Dump { tree, out } => dump(alloc, tree, out, store, sink),
        Command::Freeze { tree, api } => freeze(alloc, tree, api, store, sink),
        Command::Judge { old, new } => judge(alloc, old, new, store, sink),
        Command::Run { words } => run(alloc, words, store, sink, link),
        Command::Witness { old, new } => witness(alloc, old, new, store, sink),
        Command::Verify { api } => verify(alloc, api, store, sink),
        Command::Ask { words } => ask(alloc, words, store, sink),
        Command::Rehash { api } => rehash(alloc, api, store, sink),
        Command::Explain { file } => run_task(alloc, Task::Explain, file, store, sink),
        Command::Replay { words } => replay(alloc, words, store, sink),
        Command::Make { count, out } => make(alloc, count, out, store, sink, link),
    }
}
