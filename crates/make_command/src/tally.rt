//! What is counted of the lines of a calls file that were run.
ghost use Rattle.std.specs.Prelude.{◌≡◌, ◌<◌, ◌≤◌, ◌-◌, ◌^◌, length};
ghost use Rattle.call_runner.specs.Runs.{line_data};
ghost use Rattle.make_command.specs.Tally as meant;

use aidl_outside::Carried;
use call_runner::{LineOut, LineRun};
use std::marker::Model;

/// The lines that were run, how many of them came to what, and the bytes that were sent.
#[derive(Drop)]
pub struct Tally {
    pub lines: usize,
    pub done: usize,
    pub transport: usize,
    pub refused: usize,
    pub sent: u128,
}

impl Model for Tally {
    ghost use Rattle.std.specs.Prelude.{◌≤◌, ◌*◌, ◌^◌, ◌-◌};
    ghost use Rattle.make_command.specs.Tally.{Counts};

    ghost Value = { Counts };

    ghost view = { λ t. record {
      lines = t.lines;
      done = t.done;
      transport = t.transport;
      refused = t.refused;
      sent = t.sent;
    } };

    // A line is of one sort, and at most two parcels are sent of it.
    ghost invariant = { λ t. (t.done ≤ t.lines)
        × (t.transport ≤ t.lines) × (t.refused ≤ t.lines) × (t.sent ≤ t.lines * (2 ^ 65 - 2)) };
}

impl Tally {
    /// No line yet.
    pub fn new() -> Tally
        ensures { result ≡ meant.nothing }
    {
        Tally {
            lines: 0,
            done: 0,
            transport: 0,
            refused: 0,
            sent: 0,
        }
    }

    /// Counts one line more.
    pub fn with(self, run: &LineRun) -> Tally
        requires few { self.lines < 2 ^ 63 }
        requires parcels { length run.now.carried ≤ 2 }
        ensures { result ≡ meant.counted self run.now.carried (line_data run.now.out) }
    {
        Tally {
            lines: self.lines + 1,
            done: self.done + done_in(&run.out),
            transport: self.transport + transport_in(&run.out),
            refused: self.refused + refused_in(&run.out),
            sent: self.sent + sent_in(run.carried.as_slice()),
        }
    }
}

// 1 of a line whose call came to its end, and else 0.
fn done_in(out: &LineOut) -> usize
    ensures number { result ≡ meant.done_in (line_data out.now) }
    ensures one { result ≤ 1 }
{
    match out {
        LineOut::Refused(_) => 0,
        LineOut::Transport { .. } => 0,
        LineOut::OnewayDone { .. } => 1,
        LineOut::Done { .. } => 1,
    }
}

// 1 of a line whose request the server refused, and else 0.
fn transport_in(out: &LineOut) -> usize
    ensures number { result ≡ meant.transport_in (line_data out.now) }
    ensures one { result ≤ 1 }
{
    match out {
        LineOut::Refused(_) => 0,
        LineOut::Transport { .. } => 1,
        LineOut::OnewayDone { .. } => 0,
        LineOut::Done { .. } => 0,
    }
}

// 1 of a line that is no call, and else 0.
fn refused_in(out: &LineOut) -> usize
    ensures number { result ≡ meant.refused_in (line_data out.now) }
    ensures one { result ≤ 1 }
{
    match out {
        LineOut::Refused(_) => 1,
        LineOut::Transport { .. } => 0,
        LineOut::OnewayDone { .. } => 0,
        LineOut::Done { .. } => 0,
    }
}

// The bytes that were sent in parcels.
fn sent_in(carried: &[Carried]) -> u128
    requires { length carried.now ≤ 2 }
    ensures number { result ≡ meant.sent_in carried.now }
    ensures most { result ≤ 2 ^ 65 - 2 }
{
    let mut sent: u128 = 0;
    for entry in carried {
        sent += entry.sent.len() as u128;
    }
    sent
}
