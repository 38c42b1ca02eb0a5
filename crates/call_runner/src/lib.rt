//! A line of a calls file run between two schemas: its request and its reply are carried over a link as real bytes.
#![tactic(auto)]

mod carrying;
mod exchange;
mod line;
mod meaning;
mod reporting;
mod running;
mod serving;

pub use call_scripts::{Refused, RefusedName};
pub use line::{LineOut, LineRun, Methods, RunFault};
pub use running::run_line;
pub use stub_dispatch::{Got, Side};
