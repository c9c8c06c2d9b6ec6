// The lines that a script's lines are answered with.
ghost use Rattle.std.specs.Prelude.{◌≡◌, ◌++◌, [], OnOk, OnErr};
ghost use Rattle.rest_replies.specs.ReplyLine.{reply_line_text};

use crate::handled::Handled;
use crate::pieces::{always, append_all, when};
use crate::response::body_of;
use crate::status::HttpStatus;
use gno_num::Memory;
use itoa::Buffer;

/// The line that there was no memory.
pub fn no_memory_line() -> &'static [u8]
    ensures { result.now ≡ reply_line_text HttpStatus.InternalError [] }
{
    b"500 {\"error\":\"memory\"}\n"
}

/// Appends the line of an answer. After `Memory` nothing is appended.
pub fn write_reply_line(answer: &Handled, out: &mut Vec<u8>) -> Result<(), Memory>
    ensures ok { OnOk result (out.new.items
        ≡ out.old.items ++ reply_line_text answer.now.status answer.now.body.items) }
    ensures err { OnErr result (out.new.items ≡ out.old.items) }
{
    let body = body_of(answer);
    let mut buffer = Buffer::new();
    append_all(
        &[
            always(buffer.format(answer.status.code()).as_bytes()),
            when(!body.is_empty(), b" "),
            always(body),
            always(b"\n"),
        ],
        out,
    )
}
