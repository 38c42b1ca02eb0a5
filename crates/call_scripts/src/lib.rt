//! Lines of a calls file: what each means between a client's schema and a server's, with the arguments and the answer of its
//! call, or why it is refused.
#![tactic(auto)]

mod answers;
mod arguments;
mod json;
mod laws;
mod line;
mod names;
mod refused;
mod script;
mod thrown;

pub use laws::{law_every_call_has_a_line, law_script_fits};
pub use refused::{Place, Refused, RefusedName};
pub use script::{Call, Script, Target, script_of};
