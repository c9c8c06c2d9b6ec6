// Why a request is refused.
ghost use Rattle.std.specs.Prelude.{◌≡◌};
ghost use Rattle.rest_replies.specs.Error.{plain_error, placed_error, named_error};

use crate::code::ErrorCode;
use crate::status::HttpStatus;

/// Why a request is refused.
#[derive(Clone, Copy, Debug, PartialEq, Eq)]
pub struct RestError {
    pub status: HttpStatus,
    pub code: ErrorCode,
    /// The place in the body where the fault is.
    pub at: Option<u64>,
}

impl RestError {
    /// A code with its status.
    pub fn of(code: ErrorCode) -> RestError
        ensures { result ≡ plain_error code }
    {
        RestError {
            status: code.status(),
            code,
            at: None,
        }
    }

    /// A code with its status and a place in the body.
    pub(crate) fn at_place(code: ErrorCode, at: u64) -> RestError
        ensures { result ≡ placed_error code at }
    {
        RestError {
            status: code.status(),
            code,
            at: Some(at),
        }
    }

    /// The code of a name that stands in the body: the body is at fault.
    pub(crate) fn in_body(code: ErrorCode) -> RestError
        ensures { result ≡ named_error code }
    {
        RestError {
            status: HttpStatus::BadRequest,
            code,
            at: None,
        }
    }
}
