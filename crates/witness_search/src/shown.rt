//! What shows a broken rule, or why nothing does.

use witness_calls::{Call, Showing};

/// A call that shows a broken rule, and what it shows (own).
pub struct Witness {
    pub call: Call,
    pub showing: Showing,
}

impl Drop for Witness {
    fn drop(self) {
        let Witness {
            call: _,
            showing: _,
        } = self;
    }
}

/// Why no call shows a broken rule: the rule has no row in the table, or no call of its row is shown (own).
#[derive(Clone, Copy)]
pub enum NoCall {
    OutsideWire,
    NoCandidate,
}

/// A call that shows a broken rule, or the reason why there is none (own).
pub enum Shown {
    Found(Witness),
    Reason(NoCall),
}

// By hand, as that of a witness.
impl Drop for Shown {
    fn drop(self) {
        match self {
            Shown::Found(_) => {}
            Shown::Reason(_) => {}
        }
    }
}
