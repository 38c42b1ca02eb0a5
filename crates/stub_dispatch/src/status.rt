//! The statuses of refused requests, the codes of exceptions, and the bound on lengths, by their names (libutils, Errors.h; libbinder, Status.h).

/// UNKNOWN_TRANSACTION: there is no interface of the name, or no method of the code.
pub const UNKNOWN_TRANSACTION: i32 = -74;

/// BAD_TYPE: a request doesn't begin with the token.
pub const BAD_TYPE: i32 = -2_147_483_647;

/// EX_BAD_PARCELABLE, the exception of a request with bytes left over.
pub const BAD_PARCELABLE: i32 = -2;

/// EX_ILLEGAL_STATE, the exception where no answer is written down.
pub const ILLEGAL_STATE: i32 = -5;

/// EX_SERVICE_SPECIFIC, a service's own exception, which alone has an error word.
pub const SERVICE_SPECIFIC: i32 = -8;

/// EX_PARCELABLE, an exception with a parcelable.
pub const PARCELABLE_EXCEPTION: i32 = -9;

/// EX_HAS_NOTED_APPOPS_REPLY_HEADER, a header in front of a reply.
pub const NOTED_HEADER: i32 = -127;

/// EX_HAS_REPLY_HEADER, a header in front of a reply.
pub const REPLY_HEADER: i32 = -128;

/// EX_TRANSACTION_FAILED.
pub const TRANSACTION_FAILED: i32 = -129;

/// The most that the lengths of a call's `out` arrays may add up to (own).
pub const MOST_ITEMS: usize = 65_536;
