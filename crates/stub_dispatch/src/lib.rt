//! Calls as bytes: the request of a call, how a service answers it by its handler, the reply, and what a client makes of it.
#![tactic(auto)]

mod answered;
mod arguments;
mod call;
mod call_reader;
mod callee;
mod openings;
mod planned_arguments;
mod planned_type;
mod receiving;
mod replies;
mod reply_lengths;
mod request_lengths;
mod requests;
mod sending;
mod service;
mod side;
mod status;
mod token;
mod unscripted;

pub use answered::Answered;
pub use call::{comes_back, is_out, method_of};
pub use callee::Callee;
pub use openings::opening;
pub use parcel_words::BAD_VALUE;
pub use parcel_write::WriteFault;
pub use receiving::{Receipt, receive, receive_call};
pub use replies::{Got, read_answer};
pub use reply_lengths::reply_length;
pub use request_lengths::request_length;
pub use requests::request;
pub use sending::{answer_bytes, unread_bytes};
pub use service::Service;
pub use side::Side;
pub use status::{BAD_TYPE, MOST_ITEMS, SERVICE_SPECIFIC, UNKNOWN_TRANSACTION};
pub use token::{after_token, descriptor_of};
pub use unscripted::not_scripted;
