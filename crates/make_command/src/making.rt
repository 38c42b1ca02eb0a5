//! The calls between the two trees, each carried over a link and counted, and what is printed of them.
ghost use Rattle.std.specs.Prelude.{◌≡◌, ◌+◌, ◌<◌, ◌^◌, [], IfOk};
ghost use Rattle.aidl_schema.specs.Broken.{broken};
ghost use Rattle.call_scripts.specs.Script.{script};
ghost use Rattle.aidl_base.specs.declared.profile.Profile.TheVariants as profile;
ghost use Rattle.make_command.specs.Making.{counted_course, made, make_course};
ghost use Rattle.make_command.specs.Tally.{Counts, counted, nothing};
ghost use Rattle.make_command.specs.steps.Steps.{CountsTo, with_link};
ghost use Rattle.run_command.specs.CallLines.{lines_of};
ghost use Rattle.run_command.specs.Running.{line_course};
ghost use Rattle.tool_frame.specs.Course.{Course, at_once};
ghost use Rattle.tool_frame.specs.Courses.{RanCourse, seen_alone};
ghost use Rattle.tool_frame.specs.Exit.{number_of};
ghost use Rattle.tool_frame.specs.Seen.{Seen};
ghost use Rattle.wire_model.specs.Outcome.{SameWays};

use crate::judging::judge_made;
use crate::printing::made_answer;
use crate::tally::Tally;
use aidl_base::Profile;
use aidl_outside::{Link, Sink};
use aidl_schema::Schema;
use call_runner::{RunFault, Side, run_line};
use run_command::{both_plans, cut};
use std::alloc::Global;
use tool_frame::{Exit, print};
use wire_model::law_ways;

/// Judges a newer schema after an older one, and prints the lines of what is broken. Where nothing is, it runs the calls of a file from
/// the newer to the older one, which both read strictly, and then prints four lines: the numbers of declarations, of broken
/// rules, of lines that came to what, and of bytes that were sent. Before that nothing is printed. The answer is the exit.
pub fn run_made<K: Sink, L: Link>(
    alloc: Global,
    old: &Schema,
    new: &Schema,
    calls: &[u8],
    sink: &mut K,
    link: &mut L,
) -> Exit
    ensures { let seen = seen_alone K.told K.fault_record L.log L.is_faithful L.fault_record in
        RanCourse (make_course old.now.decls new.now.decls calls.now)
        (seen sink.old link.old) (seen sink.new link.new) (number_of result) }
{
    match judge_made(alloc, old, new) {
        Ok(None) => run_calls(alloc, old, new, calls, sink, link),
        Ok(Some(printed)) => print(alloc, Ok(printed), sink),
        Err(_) => Exit::OutOfMemory,
    }
}

// Runs the calls between two schemas of which the newer one may follow the older, and prints what was counted.
fn run_calls<K: Sink, L: Link>(
    alloc: Global,
    old: &Schema,
    new: &Schema,
    calls: &[u8],
    sink: &mut K,
    link: &mut L,
) -> Exit
    requires { broken old.now.decls new.now.decls ≡ [] }
    ensures { let seen = seen_alone K.told K.fault_record L.log L.is_faithful L.fault_record in
        let A = old.now.decls in let B = new.now.decls in
        RanCourse (counted_course B A (λ c. at_once (made A B c)) nothing (lines_of calls.now))
        (seen sink.old link.old) (seen sink.new link.new) (number_of result) }
{
    match count_calls(alloc, old, new, calls, link) {
        Ok(tally) => print(alloc, made_answer(alloc, old, new, &tally), sink),
        Err(exit) => exit,
    }
}

// Runs the calls, and counts them. Where that fails, the answer is the exit with which the run ends.
fn count_calls<L: Link>(
    alloc: Global,
    old: &Schema,
    new: &Schema,
    calls: &[u8],
    link: &mut L,
) -> Result<Tally, Exit>
    requires { broken old.now.decls new.now.decls ≡ [] }
    ensures { let seen = with_link L.log L.is_faithful L.fault_record in
        (others : Seen) (last : Counts → Course)
        → CountsTo (counted_course new.now.decls old.now.decls last nothing (lines_of calls.now))
        last (seen others link.old) (seen others link.new) result }
{
    match both_plans(alloc, new, old) {
        Ok((new_plans, old_plans)) => {
            let client = Side::new(new, &new_plans);
            let server = Side::new(old, &old_plans);
            law_ways(new, old);
            count_lines(alloc, &client, &server, calls, link)
        }
        Err(_) => Err(Exit::OutOfMemory),
    }
}

// Runs the lines of a calls file in their order, and counts them.
fn count_lines<L: Link>(
    alloc: Global,
    client: &Side<'_>,
    server: &Side<'_>,
    calls: &[u8],
    link: &mut L,
) -> Result<Tally, Exit>
    requires { SameWays client.now server.now }
    ensures { let seen = with_link L.log L.is_faithful L.fault_record in
        (others : Seen) (last : Counts → Course)
        → CountsTo (counted_course client.now server.now last nothing (lines_of calls.now))
        last (seen others link.old) (seen others link.new) result }
{
    let mut tally = Tally::new();
    let mut rest = calls;
    while !rest.is_empty() {
        let (line, after) = cut(rest);
        let next = count_line(alloc, client, server, tally, line, link)?;
        tally = next;
        rest = after;
    }
    Ok(tally)
}

// Runs a line, and counts it. Where that fails, the answer is the exit with which the run ends.
fn count_line<L: Link>(
    alloc: Global,
    client: &Side<'_>,
    server: &Side<'_>,
    tally: Tally,
    line: &[u8],
    link: &mut L,
) -> Result<Tally, Exit>
    requires ways { SameWays client.now server.now }
    requires few { tally.lines < 2 ^ 63 }
    ensures counts { let seen = with_link L.log L.is_faithful L.fault_record in
        let A = client.now in let B = server.now in
        (others : Seen) (next : Counts → Course)
        → CountsTo (line_course profile.Strict A B
        (λ carried methods out. next (counted tally carried out)) (script A B line.now))
        next (seen others link.old) (seen others link.new) result }
    ensures lines { IfOk result (λ t. t.lines ≡ tally.lines + 1) }
{
    match run_line(alloc, Profile::Strict, client, server, line, link) {
        Ok(run) => Ok(tally.with(&run)),
        Err(RunFault::LinkFault) => Err(Exit::LinkFailed),
        Err(RunFault::OutOfMemory) => Err(Exit::OutOfMemory),
    }
}
