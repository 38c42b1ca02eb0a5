//! The verdicts of commands that met no fault, with their exits.
ghost use Rattle.std.specs.Prelude.{◌≡◌};
ghost use Rattle.tool_frame.specs.Verdict.{as_exit};

use crate::exit::Exit;

/// How a command ends that met no fault.
#[derive(Clone, Copy)]
pub enum Verdict {
    /// done
    Done,
    /// a negative verdict
    Negative,
    /// a limit was passed
    LimitPassed,
}

impl Verdict {
    /// The exit that goes with it.
    pub fn exit(self) -> Exit
        ensures { result ≡ as_exit self }
    {
        match self {
            Verdict::Done => Exit::Done,
            Verdict::Negative => Exit::Negative,
            Verdict::LimitPassed => Exit::LimitPassed,
        }
    }
}
