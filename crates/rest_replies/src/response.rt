// Responses, byte for byte.
ghost use Rattle.std.specs.Prelude.{◌≡◌, ◌++◌, [], OnOk, OnErr};
ghost use Rattle.rest_replies.specs.Response.{body_of, body_sent, continue_text, has_allow, has_length, response_text};

use crate::handled::Handled;
use crate::pieces::{always, append_all, when};
use crate::status::HttpStatus;
use gno_num::Memory;
use itoa::Buffer;

/// What a client is sent that waits before it sends its body.
pub fn continue_response() -> &'static [u8]
    ensures { result.now ≡ continue_text }
{
    b"HTTP/1.1 100 Continue\r\n\r\n"
}

/// The response that there was no memory.
pub fn no_memory_response(is_head: bool, close: bool) -> &'static [u8]
    ensures { result.now ≡ response_text is_head close HttpStatus.InternalError [] [] }
{
    match (is_head, close) {
        (false, false) => {
            b"HTTP/1.1 500 Internal Server Error\r\nContent-Type: application/json\r\nContent-Length: 18\r\n\r\n{\"error\":\"memory\"}"
        }
        (false, true) => {
            b"HTTP/1.1 500 Internal Server Error\r\nConnection: close\r\nContent-Type: application/json\r\nContent-Length: 18\r\n\r\n{\"error\":\"memory\"}"
        }
        (true, false) => b"HTTP/1.1 500 Internal Server Error\r\nContent-Length: 0\r\n\r\n",
        (true, true) => {
            b"HTTP/1.1 500 Internal Server Error\r\nConnection: close\r\nContent-Length: 0\r\n\r\n"
        }
    }
}

/// Appends the response: without its body where the method was `HEAD`, and with a line that says so
/// where the connection closes behind it. After `Memory` nothing is appended.
pub fn write_response(
    answer: &Handled,
    is_head: bool,
    close: bool,
    out: &mut Vec<u8>,
) -> Result<(), Memory>
    ensures ok { OnOk result (out.new.items ≡ out.old.items
        ++ response_text is_head close answer.now.status answer.now.allow.now answer.now.body.items) }
    ensures err { OnErr result (out.new.items ≡ out.old.items) }
{
    let body = body_sent(is_head, answer);
    let names_methods = has_allow(answer.status);
    let tells_length = has_length(answer.status);
    let mut buffer = Buffer::new();
    append_all(
        &[
            always(answer.status.line()),
            when(close, b"Connection: close\r\n"),
            when(names_methods, b"Allow: "),
            when(names_methods, allow_of(answer)),
            when(names_methods, b"\r\n"),
            when(!body.is_empty(), b"Content-Type: application/json\r\n"),
            when(tells_length, b"Content-Length: "),
            when(tells_length, buffer.format(body.len()).as_bytes()),
            when(tells_length, b"\r\n"),
            always(b"\r\n"),
            always(body),
        ],
        out,
    )
}

fn body_sent(is_head: bool, answer: &Handled) -> &[u8]
    ensures { result.now ≡ body_sent is_head answer.now.status answer.now.body.items }
{
    if is_head { b"" } else { body_of(answer) }
}

/// The body that goes with the status of an answer.
pub(crate) fn body_of(answer: &Handled) -> &[u8]
    ensures { result.now ≡ body_of answer.now.status answer.now.body.items }
{
    match answer.status {
        HttpStatus::NoContent => b"",
        HttpStatus::InternalError => b"{\"error\":\"memory\"}",
        _ => &answer.body,
    }
}

/// The methods that an answer names.
fn allow_of(answer: &Handled) -> &[u8]
    ensures { result.now ≡ answer.now.allow.now }
{
    answer.allow.as_bytes()
}

/// Whether the methods of the route are named.
fn has_allow(status: HttpStatus) -> bool
    ensures { result ≡ has_allow status }
{
    matches!(status, HttpStatus::MethodNotAllowed)
}

/// Whether the length of the body is told.
fn has_length(status: HttpStatus) -> bool
    ensures { result ≡ has_length status }
{
    !matches!(status, HttpStatus::NoContent)
}
