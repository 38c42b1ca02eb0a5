//! The table of commands: which command the words of the program are.
ghost use Rattle.std.specs.Prelude.{◌≡◌, map, string_bytes};
ghost use Rattle.std.specs.Option.{option_map};
ghost use Rattle.tool_words.specs.Rows as table;
ghost use Rattle.tool_words.specs.Seen.{command_seen, is_lenient};

use crate::command::{AskWords, Command, ReplayWords, RunWords, TypedFile};
use crate::options::{after_flag, after_tree, has_flag, tree_of};
use crate::paths::{is_path, one_path, three_paths, two_paths};
use crate::type_words::types_and_file;
use aidl_base::Profile;
use decimal_words::number_within;

/// The command that the words are, those after the program's own name. None where they are in no row of the table of
/// commands.
pub fn command_of(words: &[String]) -> Option<Command<'_>>
    ensures { option_map command_seen result ≡ table.command_of (map string_bytes words.now) }
{
    match words {
        [] => None,
        [name, words @ ..] => in_row(name.as_str(), words),
    }
}

#[tactic(auto, unfolding(crate::specs::Rows::check_row, crate::specs::Rows::verify_row, crate::specs::Rows::rehash_row, crate::specs::Rows::dump_row, crate::specs::Rows::freeze_row, crate::specs::Rows::judge_row, crate::specs::Rows::witness_row))]
fn in_row<'a>(name: &str, words: &'a [String]) -> Option<Command<'a>>
    ensures { option_map command_seen result ≡ table.in_row name.now (map string_bytes words.now) }
{
    match name {
        "decode" => decode(words),
        "encode" => encode(words),
        "check" => one_path(words).map(|tree| Command::Check { tree }),
        "dump" => two_paths(words).map(|(tree, out)| Command::Dump { tree, out }),
        "freeze" => two_paths(words).map(|(tree, api)| Command::Freeze { tree, api }),
        "verify" => one_path(words).map(|api| Command::Verify { api }),
        "rehash" => one_path(words).map(|api| Command::Rehash { api }),
        "judge" => two_paths(words).map(|(old, new)| Command::Judge { old, new }),
        "witness" => two_paths(words).map(|(old, new)| Command::Witness { old, new }),
        "run" => run(words),
        "make" => make(words),
        "ask" => ask(words),
        "explain" => explain(words),
        "replay" => replay(words),
        _ => None,
    }
}

#[tactic(auto, unfolding(crate::specs::Rows::decode_row))]
fn decode(words: &[String]) -> Option<Command<'_>>
    ensures { option_map command_seen result ≡ table.decode_row (map string_bytes words.now) }
{
    let profile = profile_of(has_flag(words, "--lenient"));
    let words = after_flag(words, "--lenient");
    let tree = tree_of(words);
    let (types, path) = types_and_file(after_tree(words))?;
    let file = TypedFile { tree, types, path };
    Some(Command::Decode { profile, file })
}

// The profile by which is read.
fn profile_of(lenient: bool) -> Profile
    ensures { is_lenient result ≡ lenient }
{
    if lenient {
        Profile::Lenient
    } else {
        Profile::Strict
    }
}

#[tactic(auto, unfolding(crate::specs::Rows::encode_row))]
fn encode(words: &[String]) -> Option<Command<'_>>
    ensures { option_map command_seen result ≡ table.encode_row (map string_bytes words.now) }
{
    let tree = tree_of(words);
    let (types, path) = types_and_file(after_tree(words))?;
    let file = TypedFile { tree, types, path };
    Some(Command::Encode { file })
}

#[tactic(auto, unfolding(crate::specs::Rows::explain_row))]
fn explain(words: &[String]) -> Option<Command<'_>>
    ensures { option_map command_seen result ≡ table.explain_row (map string_bytes words.now) }
{
    let tree = tree_of(words);
    let (types, path) = types_and_file(after_tree(words))?;
    let file = TypedFile { tree, types, path };
    Some(Command::Explain { file })
}

#[tactic(auto, unfolding(crate::specs::Rows::run_row))]
fn run(words: &[String]) -> Option<Command<'_>>
    ensures { option_map command_seen result ≡ table.run_row (map string_bytes words.now) }
{
    let trace = has_flag(words, "--trace");
    let words = after_flag(words, "--trace");
    let profile = profile_of(has_flag(words, "--lenient"));
    let (client, server, calls) = three_paths(after_flag(words, "--lenient"))?;
    let words = RunWords {
        profile,
        trace,
        client,
        server,
        calls,
    };
    Some(Command::Run { words })
}

#[tactic(auto, unfolding(crate::specs::Rows::make_row))]
fn make(words: &[String]) -> Option<Command<'_>>
    ensures { option_map command_seen result ≡ table.make_row (map string_bytes words.now) }
{
    match words {
        [count, out] if is_path(out.as_str()) => make_of(count.as_str(), out.as_str()),
        _ => None,
    }
}

fn make_of<'a>(count: &str, out: &'a str) -> Option<Command<'a>>
    ensures { option_map command_seen result ≡ table.make_of count.now out.now }
{
    let count = number_within(1, 1000, count.as_bytes())?;
    Some(Command::Make { count, out })
}

#[tactic(auto, unfolding(crate::specs::Rows::ask_row))]
fn ask(words: &[String]) -> Option<Command<'_>>
    ensures { option_map command_seen result ≡ table.ask_row (map string_bytes words.now) }
{
    match words {
        [api, version, interface, code, file] if is_path(api.as_str()) && is_path(file.as_str()) =>
            ask_of(
                api.as_str(),
                version.as_str(),
                interface.as_str(),
                code.as_str(),
                file.as_str(),
            ),
        _ => None,
    }
}

fn ask_of<'a>(
    api: &'a str,
    version: &str,
    interface: &'a str,
    code: &str,
    path: &'a str,
) -> Option<Command<'a>>
    ensures { option_map command_seen result
        ≡ table.ask_of api.now version.now interface.now code.now path.now }
{
    let version = number_within(1, 9999, version.as_bytes())?;
    let code = number_within(0, 4294967295, code.as_bytes())?;
    let words = AskWords {
        api,
        version,
        interface,
        code,
        path,
    };
    Some(Command::Ask { words })
}

#[tactic(auto, unfolding(crate::specs::Rows::replay_row))]
fn replay(words: &[String]) -> Option<Command<'_>>
    ensures { option_map command_seen result ≡ table.replay_row (map string_bytes words.now) }
{
    match words {
        [server, interface, trace] => replay_of(
            server.as_str(),
            interface.as_str(),
            trace.as_str(),
        ),
        _ => None,
    }
}

fn replay_of<'a>(server: &'a str, interface: &'a str, trace: &'a str) -> Option<Command<'a>>
    ensures { option_map command_seen result ≡ table.replay_of server.now interface.now trace.now }
{
    if is_path(server) && is_path(trace) {
        let words = ReplayWords {
            server,
            interface,
            trace,
        };
        Some(Command::Replay { words })
    } else {
        None
    }
}
