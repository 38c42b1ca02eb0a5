//! The lines of a calls file, run one after the other.
ghost use Rattle.std.specs.Prelude.{◌≡◌, true, IfErr, IfOk};
ghost use Rattle.aidl_outside.specs.Told.{Adds};
ghost use Rattle.call_runner.specs.Runs.{IsTyped, line_data};
ghost use Rattle.stub_dispatch.specs.Planned.{ArePlansOf};
ghost use Rattle.call_scripts.specs.Script.{script};
ghost use Rattle.run_command.specs.CallLines.{lines_of};
ghost use Rattle.run_command.specs.Projected.{Projects, projected_piece, projected_text};
ghost use Rattle.run_command.specs.Running.{line_course, lines_course, piece, puts, run_course};
ghost use Rattle.run_command.specs.steps.Steps.{Steps};
ghost use Rattle.tool_frame.specs.Course.{Course};
ghost use Rattle.tool_frame.specs.Exit.{number_of};
ghost use Rattle.tool_frame.specs.Verdict.{IsVerdict};
ghost use Rattle.tool_frame.specs.Courses.{RanCourse, seen_alone};
ghost use Rattle.tool_frame.specs.Prints.{PutsText};
ghost use Rattle.wire_model.specs.Outcome.{OneFollows, SameWays};

use crate::cutting::{Line, cut};
use crate::judging::judge_both;
use crate::pieces::line_piece;
use crate::printers::{Printers, SidePrinter};
use crate::session::Session;
use aidl_base::OutOfMemory;
use aidl_outside::{Link, Sink};
use aidl_schema::Schema;
use call_runner::{LineRun, RunFault, Side, run_line};
use marshal_plans::{Plans, compile};
use std::alloc::Global;
use tool_frame::{Exit, print, put};
use wire_model::law_ways;

/// Runs a calls file between two schemas, both of which read by the profile: where neither may follow the other, that is printed, and
/// else the lines are run. The answer is the exit.
pub fn run_trees<K: Sink, L: Link>(
    alloc: Global,
    session: &Session<&Schema>,
    calls: &[u8],
    sink: &mut K,
    link: &mut L,
) -> Exit
    ensures ran { let seen = seen_alone K.told K.fault_record L.log L.is_faithful L.fault_record in
        let A = session.now.client.now.decls in let B = session.now.server.now.decls in
        RanCourse (run_course session.now.profile A B session.now.trace calls.now)
        (seen sink.old link.old) (seen sink.new link.new) (number_of result) }
    // Over a faithful link, between two schemas of which one may follow the other, a run that nothing stops ends with 0, and has put exactly
    // what its lines are projected to.
    ensures projected { let seen = seen_alone K.told K.fault_record
        L.log L.is_faithful L.fault_record in
        let A = session.now.client.now.decls in let B = session.now.server.now.decls in
        Projects A B
        (projected_text session.now.profile A B session.now.trace 1 (lines_of calls.now))
        (seen sink.old link.old) (seen sink.new link.new) (number_of result) }
{
    match judge_both(alloc, session.client, session.server) {
        Ok(None) => run_judged(alloc, session, calls, sink, link),
        Ok(Some(printed)) => print(alloc, Ok(printed), sink),
        Err(_) => Exit::OutOfMemory,
    }
}

// Runs the lines of a calls file between two schemas of which one may follow the other.
fn run_judged<K: Sink, L: Link>(
    alloc: Global,
    session: &Session<&Schema>,
    calls: &[u8],
    sink: &mut K,
    link: &mut L,
) -> Exit
    requires { OneFollows session.now.client.now.decls session.now.server.now.decls }
    ensures ran { let seen = seen_alone K.told K.fault_record L.log L.is_faithful L.fault_record in
        let A = session.now.client.now.decls in let B = session.now.server.now.decls in
        RanCourse (lines_course session.now.profile A B session.now.trace 1 (lines_of calls.now))
        (seen sink.old link.old) (seen sink.new link.new) (number_of result) }
    ensures projected { let seen = seen_alone K.told K.fault_record
        L.log L.is_faithful L.fault_record in
        let A = session.now.client.now.decls in let B = session.now.server.now.decls in
        Projects A B
        (projected_text session.now.profile A B session.now.trace 1 (lines_of calls.now))
        (seen sink.old link.old) (seen sink.new link.new) (number_of result) }
{
    match both_plans(alloc, session.client, session.server) {
        Ok((client_plans, server_plans)) => {
            let client = Side::new(session.client, &client_plans);
            let server = Side::new(session.server, &server_plans);
            law_ways(session.client, session.server);
            let planned = Session {
                profile: session.profile,
                client,
                server,
                trace: session.trace,
            };
            run_lines(alloc, &planned, calls, sink, link)
        }
        Err(_) => Exit::OutOfMemory,
    }
}

/// The plans of both schemas. Memory may be wanted.
pub fn both_plans(
    alloc: Global,
    client: &Schema,
    server: &Schema,
) -> Result<(Plans, Plans), OutOfMemory>
    ensures { IfOk result
        (λ plans. ArePlansOf plans.0 client.now.decls × ArePlansOf plans.1 server.now.decls) }
{
    let client_plans = compile(alloc, client, &[])?;
    let server_plans = compile(alloc, server, &[])?;
    Ok((client_plans, server_plans))
}

/// Runs the lines of a calls file between a client and a server in their order, and puts each in one piece, after its call has ended.
/// No code of an interface that both have may be that of a oneway method in one schema and of a two-way method in the other. The
/// answer is the exit.
pub fn run_lines<K: Sink, L: Link>(
    alloc: Global,
    session: &Session<Side<'_>>,
    calls: &[u8],
    sink: &mut K,
    link: &mut L,
) -> Exit
    requires { SameWays session.now.client session.now.server }
    ensures ran { let seen = seen_alone K.told K.fault_record L.log L.is_faithful L.fault_record in
        let A = session.now.client in let B = session.now.server in
        RanCourse (lines_course session.now.profile A B session.now.trace 1 (lines_of calls.now))
        (seen sink.old link.old) (seen sink.new link.new) (number_of result) }
    ensures projected { let seen = seen_alone K.told K.fault_record
        L.log L.is_faithful L.fault_record in
        let A = session.now.client in let B = session.now.server in
        Projects A B
        (projected_text session.now.profile A B session.now.trace 1 (lines_of calls.now))
        (seen sink.old link.old) (seen sink.new link.new) (number_of result) }
{
    let mut printers = Printers {
        client: SidePrinter::new(alloc, session.client.schema()),
        server: SidePrinter::new(alloc, session.server.schema()),
    };
    let mut rest = calls;
    let mut number = 1;
    while !rest.is_empty() {
        let (bytes, after) = cut(rest);
        let line = Line { number, bytes };
        if let Err(exit) = run_next(alloc, session, &mut printers, &line, sink, link) {
            return exit;
        }
        if after.is_empty() {
            return Exit::Done;
        }
        rest = after;
        number += 1;
    }
    Exit::Done
}

// Runs a line. Where that fails, the answer is the exit with which the run ends.
fn run_next<K: Sink, L: Link>(
    alloc: Global,
    session: &Session<Side<'_>>,
    printers: &mut Printers<'_>,
    line: &Line<'_>,
    sink: &mut K,
    link: &mut L,
) -> Result<(), Exit>
    requires ways { SameWays session.now.client session.now.server }
    requires client { printers.old.client ≡ session.now.client }
    requires server { printers.old.server ≡ session.now.server }
    ensures same { printers.new ≡ printers.old }
    ensures steps { let seen = seen_alone K.told K.fault_record
        L.log L.is_faithful L.fault_record in
        let p = session.now.profile in let A = session.now.client in let B = session.now.server in
        (next : Course) → Steps
        (line_course p A B (puts A B session.now.trace line.now.number next)
        (script A B line.now.bytes.now)) next
        (seen sink.old link.old) (seen sink.new link.new) result }
    ensures exits { IfErr result (λ exit. IsVerdict (number_of exit) → ⊥) }
    ensures projected { let p = session.now.profile in
        let A = session.now.client in let B = session.now.server in
        OneFollows A B → L.is_faithful link.old ≡ true
        → IfOk result (λ u. Adds (K.told sink.old) (K.told sink.new)
        (projected_piece p A B session.now.trace line.now.number
        (script A B line.now.bytes.now))) }
{
    match run_line(
        alloc,
        session.profile,
        &session.client,
        &session.server,
        line.bytes,
        link,
    ) {
        Ok(run) => put_line(alloc, session, printers, line.number, &run, sink),
        Err(RunFault::LinkFault) => Err(Exit::LinkFailed),
        Err(RunFault::OutOfMemory) => Err(Exit::OutOfMemory),
    }
}

// Puts what is put of a line.
fn put_line<K: Sink>(
    alloc: Global,
    session: &Session<Side<'_>>,
    printers: &mut Printers<'_>,
    number: usize,
    run: &LineRun,
    sink: &mut K,
) -> Result<(), Exit>
    requires client { printers.old.client ≡ session.now.client }
    requires server { printers.old.server ≡ session.now.server }
    requires typed { IsTyped session.now.client session.now.server run.now.methods run.now.out }
    ensures same { printers.new ≡ printers.old }
    ensures put { let A = session.now.client in let B = session.now.server in
        PutsText
        (piece A B session.now.trace number run.now.carried run.now.methods (line_data run.now.out))
        (K.told sink.old) (K.told sink.new)
        (K.fault_record sink.old) (K.fault_record sink.new) result }
{
    match line_piece(alloc, printers, session.trace, number, run) {
        Ok(text) => put(alloc, text.as_str(), sink),
        Err(_) => Err(Exit::OutOfMemory),
    }
}
