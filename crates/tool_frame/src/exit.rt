//! The exits of the program, with their numbers.
ghost use Rattle.std.specs.Prelude.{◌≡◌};
ghost use Rattle.tool_frame.specs.Exit.{number_of};

/// How a run of the program ends.
#[derive(Clone, Copy)]
pub enum Exit {
    /// exit 0: done
    Done = 0,
    /// exit 1: a negative verdict
    Negative = 1,
    /// exit 2: the words are in no row of the table of commands
    RefusedWords = 2,
    /// exit 3: a call of the store failed
    StoreFailed = 3,
    /// exit 4: a call of the sink failed
    SinkFailed = 4,
    /// exit 5: memory was wanted
    OutOfMemory = 5,
    /// exit 6: a call of the link failed
    LinkFailed = 6,
    /// exit 7: a limit was passed
    LimitPassed = 7,
    /// exit 8: the runtime didn't hand out the words, other than for want of memory
    NoWords = 8,
}

impl Exit {
    /// The exit status.
    pub fn status(self) -> u8
        ensures { result ≡ number_of self }
    {
        self as u8
    }
}
