//! Whether two sides of a call are the same.
ghost use Rattle.std.specs.Prelude.{◌≡◌, ◌↔◌, IsTrue};
ghost use Rattle.aidl_values.specs.View.{views};
ghost use Rattle.compat_witness.specs.Sides.{called};
ghost use Rattle.stub_dispatch.specs.Got.{got_of};
ghost use Rattle.wire_model.specs.Calls.{exception, optional_view, returned};
ghost use Rattle.std.specs.Prelude.{Ok};
ghost use Rattle.witness_calls.specs.Seen.{reading_seen};

use crate::reading::Reading;
use aidl_base::Text;
use aidl_schema::same_text;
use aidl_values::Value;
use stub_dispatch::Got;
use value_views::same_value;

/// Whether two sides are the same: one kind, with equal numbers and texts and the same data.
pub fn same_reading(a: &Reading, b: &Reading) -> bool
    ensures { IsTrue result ↔ (reading_seen a.now ≡ reading_seen b.now) }
{
    match a {
        Reading::Transport(status) => match b {
            Reading::Transport(other) => *status == *other,
            Reading::Left(_) => false,
            Reading::Called { .. } => false,
            Reading::Client(_) => false,
            Reading::NoReply => false,
        },
        Reading::Left(method) => match b {
            Reading::Transport(_) => false,
            Reading::Left(other) => *method == *other,
            Reading::Called { .. } => false,
            Reading::Client(_) => false,
            Reading::NoReply => false,
        },
        Reading::Called { method, saw } => is_called(b, *method, saw.as_slice()),
        Reading::Client(got) => match b {
            Reading::Transport(_) => false,
            Reading::Left(_) => false,
            Reading::Called { .. } => false,
            Reading::Client(other) => same_got(got, other),
            Reading::NoReply => false,
        },
        Reading::NoReply => match b {
            Reading::Transport(_) => false,
            Reading::Left(_) => false,
            Reading::Called { .. } => false,
            Reading::Client(_) => false,
            Reading::NoReply => true,
        },
    }
}

fn is_called(reading: &Reading, number: u32, values: &[Value]) -> bool
    ensures { IsTrue result ↔ (called number (views values.now) ≡ reading_seen reading.now) }
{
    match reading {
        Reading::Transport(_) => false,
        Reading::Left(_) => false,
        Reading::Called { method, saw } => number == *method && same_values(values, saw.as_slice()),
        Reading::Client(_) => false,
        Reading::NoReply => false,
    }
}

// Whether a client has the same.
fn same_got(a: &Got, b: &Got) -> bool
    ensures { IsTrue result ↔ (got_of a.now ≡ got_of b.now) }
{
    match a {
        Got::Returned { result, outs } => is_returned(b, result, outs.as_slice()),
        Got::Exception {
            code,
            message,
            error,
        } => is_exception(b, *code, message, *error),
        Got::Failed { status } => match b {
            Got::Returned { .. } => false,
            Got::Exception { .. } => false,
            Got::Failed { status: other } => *status == *other,
        },
    }
}

fn is_returned(got: &Got, value: &Option<Value>, values: &[Value]) -> bool
    ensures { IsTrue result
        ↔ (Ok (returned (optional_view value.now) (views values.now)) ≡ got_of got.now) }
{
    match got {
        Got::Returned { result, outs } => {
            if !same_result(value, result) {
                return false;
            }
            same_values(values, outs.as_slice())
        }
        Got::Exception { .. } => false,
        Got::Failed { .. } => false,
    }
}

fn is_exception(got: &Got, number: i32, text: &Text, extra: i32) -> bool
    ensures { IsTrue result ↔ (Ok (exception number text.now extra) ≡ got_of got.now) }
{
    match got {
        Got::Exception {
            code,
            message,
            error,
        } => number == *code && extra == *error && same_text(text, message),
        Got::Returned { .. } => false,
        Got::Failed { .. } => false,
    }
}

fn same_result(a: &Option<Value>, b: &Option<Value>) -> bool
    ensures { IsTrue result ↔ (optional_view a.now ≡ optional_view b.now) }
{
    match a {
        Some(a) => match b {
            Some(b) => same_value(a, b),
            None => false,
        },
        None => match b {
            Some(_b) => false,
            None => true,
        },
    }
}

fn same_values(a: &[Value], b: &[Value]) -> bool
    ensures { IsTrue result ↔ (views a.now ≡ views b.now) }
{
    match a {
        [] => match b {
            [] => true,
            [_other, _rest @ ..] => false,
        },
        [value, values @ ..] => match b {
            [] => false,
            [other, rest @ ..] => {
                if !same_value(value, other) {
                    return false;
                }
                same_values(values, rest)
            }
        },
    }
}
