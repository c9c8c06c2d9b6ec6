// The bodies of errors.
ghost use Rattle.std.specs.Prelude.{◌≡◌, IfOk};
ghost use Rattle.rest_replies.specs.ErrorBody.{error_text, jobs_text};

use crate::error::RestError;
use crate::pieces::{always, append_all, when};
use gno_num::Memory;
use itoa::Buffer;
use std::alloc::Global;

/// The body of an error: its code, in front of it the place of the fault, where it has one, and
/// behind it how many members of a list stand, where that is told.
pub fn error_body(alloc: Global, error: RestError, stored: Option<u64>) -> Result<Vec<u8>, Memory>
    ensures { IfOk result (λ body. body.items ≡ error_text error.code error.at stored) }
{
    let mut body = Vec::new(alloc);
    let mut buffer = Buffer::new();
    let place = buffer.format(error.at.unwrap_or(0)).as_bytes();
    let mut other_buffer = Buffer::new();
    let count = other_buffer.format(stored.unwrap_or(0)).as_bytes();
    append_all(
        &[
            always(b"{"),
            when(error.at.is_some(), b"\"at\":"),
            when(error.at.is_some(), place),
            when(error.at.is_some(), b","),
            always(b"\"error\":\""),
            always(error.code.text().as_bytes()),
            always(b"\""),
            when(stored.is_some(), b",\"stored\":"),
            when(stored.is_some(), count),
            always(b"}"),
        ],
        &mut body,
    )?;
    Ok(body)
}

/// The body of a script's answer to `WORK`.
pub fn jobs_body(alloc: Global, jobs: u64) -> Result<Vec<u8>, Memory>
    ensures { IfOk result (λ body. body.items ≡ jobs_text jobs) }
{
    let mut body = Vec::new(alloc);
    let mut count = Buffer::new();
    append_all(
        &[
            always(b"{\"jobs\":"),
            always(count.format(jobs).as_bytes()),
            always(b"}"),
        ],
        &mut body,
    )?;
    Ok(body)
}
