// What the header lines say of the body and of the connection.
ghost use Rattle.std.specs.Prelude.{◌≡◌, ◌≤◌, List, length, map, All, IfOk, IfErr, None, Some};
ghost use Rattle.httparse.specs.Spans.{header_bytes, IsHeaderWithin};
ghost use Rattle.http_conn.specs.Message.{refusal_of, body_length, closes, wants_continue};
ghost use Rattle.http_conn.specs.Stated.{IsStated, LengthIs};

use crate::fields::{all_have, any_has, count_of, first_value};
use crate::head::HeadEnd;
use gno_num::{are_digits, number_onto};
use httparse::spans::HeaderSpan;

/// The longest body.
pub(crate) const LARGEST_BODY: u64 = 4_194_304;

/// The length and the end of a message.
#[derive(Clone, Copy)]
pub(crate) struct Framing {
    pub(crate) length: u64,
    pub(crate) close: bool,
    pub(crate) wants_continue: bool,
}

/// What `Content-Length` states.
#[derive(Clone, Copy)]
enum Stated {
    /// There is none.
    Nothing,
    /// This many bytes, or 2^64 - 1 where they are more.
    Bytes(u64),
    /// No digits, or not the same in each.
    Wrong,
}

/// What `Content-Length` states.
fn stated_length(bytes: &[u8], headers: &[HeaderSpan]) -> Stated
    requires inside { All (IsHeaderWithin (length bytes.now)) headers.now }
    ensures { IsStated (map (header_bytes bytes.now) headers.now) result }
{
    match first_value(bytes, headers, b"content-length") {
        None => Stated::Nothing,
        Some(text) => {
            if text.is_empty() || !are_digits(text) {
                return Stated::Wrong;
            }
            if !all_have(bytes, headers, b"content-length", text) {
                return Stated::Wrong;
            }
            Stated::Bytes(number_onto(0, text))
        }
    }
}

/// The length that the head says, or why it is refused for it.
fn length_of(stated: Stated, has_coding: bool, is_post: bool) -> Result<u64, HeadEnd>
    ensures { LengthIs stated has_coding is_post result }
{
    match stated {
        Stated::Wrong => Err(HeadEnd::BadHead),
        _ if has_coding => Err(HeadEnd::Coding),
        Stated::Nothing if is_post => Err(HeadEnd::NoLength),
        Stated::Nothing => Ok(0),
        Stated::Bytes(length) if length > LARGEST_BODY => Err(HeadEnd::BodyTooLarge),
        Stated::Bytes(length) => Ok(length),
    }
}

/// What a head of this method, version and header lines says, or why it is refused.
pub(crate) fn framing_of(
    bytes: &[u8],
    method: &[u8],
    minor: u8,
    headers: &[HeaderSpan],
) -> Result<Framing, HeadEnd>
    requires inside { All (IsHeaderWithin (length bytes.now)) headers.now }
    ensures ok { IfOk result (λ framing. refusal_of method.now minor (map (header_bytes bytes.now) headers.now) ≡ None) }
    ensures err { IfErr result (λ end. refusal_of method.now minor (map (header_bytes bytes.now) headers.now) ≡ Some end) }
    ensures length { IfOk result (λ framing. framing.length ≡ body_length (map (header_bytes bytes.now) headers.now)) }
    ensures close { IfOk result (λ framing. framing.close ≡ closes minor (map (header_bytes bytes.now) headers.now)) }
    ensures wants_continue { IfOk result (λ framing. framing.wants_continue ≡ wants_continue minor (map (header_bytes bytes.now) headers.now)) }
{
    if minor == 1 && count_of(bytes, headers, b"host") != 1 {
        return Err(HeadEnd::BadHead);
    }
    let stated = stated_length(bytes, headers);
    let has_coding = count_of(bytes, headers, b"transfer-encoding") != 0;
    let is_post = method == b"POST".as_slice();
    let length = length_of(stated, has_coding, is_post)?;
    let close = minor == 0 || any_has(bytes, headers, b"connection", b"close");
    let wants_continue = minor == 1
        && length > 0
        && any_has(bytes, headers, b"expect", b"100-continue");
    Ok(Framing {
        length,
        close,
        wants_continue,
    })
}
