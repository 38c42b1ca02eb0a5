//! A call that may show a broken rule.

use aidl_base::Row;
use aidl_values::{Answer, Value};

/// A call between two versions that may show a broken rule. The client is the old version, or the new one where `back`;
/// `interface` and `method` are numbers of the client's schema (own).
#[derive(Drop)]
pub struct Call {
    pub back: bool,
    pub interface: u32,
    pub method: u32,
    pub values: Values,
}

/// What is sent: the arguments of a request, or the answer of the server's method in a reply, None where that one is oneway (own).
pub enum Values {
    Arguments(Row<Value>),
    Answer(Option<Answer>),
}

impl Drop for Values {
    fn drop(self) {
        match self {
            Values::Arguments(_) => {}
            Values::Answer(_) => {}
        }
    }
}
