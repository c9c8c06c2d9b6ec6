// The lines of a script, and the replies to them.
ghost use Rattle.std.specs.Prelude.{◌≡◌, ◌≤◌, ℕ, List, [], ◌++◌, OnErr, OnOk};
ghost use Rattle.std.specs.Io.KnownBytes.{Appends};
ghost use Rattle.front_api.specs.Seen.{LeadsTo};
ghost use Rattle.gno_num.specs.Faults.{Rose};
ghost use Rattle.rest_script.specs.Replying.{AnswersLine, DrainsAll, IsReplyLine};
ghost use Rattle.rest_script.specs.Serving.{WritesReply, WritesReplyFront};

use front_api::Front;
use gno_io::{Sink, put_all};
use gno_num::{Failed, Memory};
use rest_api::{Api, handle};
use rest_replies::{
    ErrorCode, Handled, RestError, ScriptLine, no_memory_line, read_line, write_reply_line,
};
use std::alloc::Global;

/// Answers a line, and writes the reply. `text` is room for it.
pub(crate) fn answer_line<F: Front, K: Sink>(
    api: &Api,
    front: &mut F,
    alloc: Global,
    sink: &mut K,
    text: &mut Vec<u8>,
    line: &[u8],
) -> Result<(), Failed>
    ensures ok { OnOk result (WritesReply F.stands front.old front.new line.now (K.taken sink.old) (K.taken sink.new)) }
    ensures err { OnErr result (WritesReplyFront F.stands front.old front.new line.now (K.taken sink.old) (K.taken sink.new)) }
    ensures later { K.faults sink.old ≤ K.faults sink.new }
    ensures cause { OnErr result (Rose (K.faults sink.old) (K.faults sink.new)) }
    ensures same { (F.sack_count front.new ≡ F.sack_count front.old) × (F.duty front.new ≡ F.duty front.old) × (F.made front.new ≡ F.made front.old) }
{
    match answer_to(api, front, alloc, line) {
        Some(answer) => match tell(sink, text, &answer) {
            Ok(()) => Ok(()),
            Err(fault) => Err(fault),
        },
        None => Ok(()),
    }
}

/// Does what a line asks for. None where it asks for nothing.
fn answer_to<F: Front>(api: &Api, front: &mut F, alloc: Global, line: &[u8]) -> Option<Handled>
    ensures answers { LeadsTo F.stands front.old front.new (AnswersLine line.now result) }
    ensures same { (F.sack_count front.new ≡ F.sack_count front.old) × (F.duty front.new ≡ F.duty front.old) × (F.made front.new ≡ F.made front.old) }
{
    match read_line(line) {
        ScriptLine::Nothing => None,
        ScriptLine::Work => Some(work(front, alloc)),
        ScriptLine::Request {
            method,
            target,
            body,
        } => Some(handle(api, front, alloc, method, target, body)),
        ScriptLine::Bad => {
            let error = RestError::of(ErrorCode::BadLine);
            Some(Handled::of_error(alloc, error, None))
        }
    }
}

/// Processes the posts that wait.
fn work<F: Front>(front: &mut F, alloc: Global) -> Handled
    ensures drains { LeadsTo F.stands front.old front.new (DrainsAll result) }
    ensures same { (F.sack_count front.new ≡ F.sack_count front.old) × (F.duty front.new ≡ F.duty front.old) × (F.made front.new ≡ F.made front.old) }
{
    match front.drain(alloc) {
        Ok(turns) => Handled::jobs(alloc, turns),
        Err(fault) => Handled::of_error(alloc, fault.into(), None),
    }
}

/// Writes the line of an answer.
fn tell<K: Sink>(sink: &mut K, text: &mut Vec<u8>, answer: &Handled) -> Result<(), Failed>
    ensures ok { OnOk result ((reply : List ℕ) × IsReplyLine answer.now reply
        × Appends (K.taken sink.old) (K.taken sink.new) reply) }
    ensures err { OnErr result ((front : List ℕ) × (more : List ℕ) × IsReplyLine answer.now (front ++ more)
        × Appends (K.taken sink.old) (K.taken sink.new) front) }
    ensures later { K.faults sink.old ≤ K.faults sink.new }
    ensures cause { OnErr result (Rose (K.faults sink.old) (K.faults sink.new)) }
{
    text.clear();
    match put_all(sink, reply_in(answer, text)) {
        Ok(()) => Ok(()),
        Err(fault) => Err(fault),
    }
}

/// The line of an answer, or that there was no memory for it.
fn reply_in<'t>(answer: &Handled, text: &'t mut Vec<u8>) -> &'t [u8]
    requires { text.old.items ≡ [] }
    ensures { IsReplyLine answer.now result.now }
{
    match write_reply_line(answer, text) {
        Ok(()) => text.as_slice(),
        Err(Memory) => no_memory_line(),
    }
}
