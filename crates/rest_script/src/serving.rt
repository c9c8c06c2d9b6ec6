// The lines of a script, one after another.
ghost use Rattle.std.specs.Prelude.{◌≡◌, ◌≤◌, IfNone, IfSome, Some};
ghost use Rattle.gno_num.specs.Faults.{Rose};
ghost use Rattle.rest_script.specs.Serving.{ServesLine, ServesScript, StopsScript};

use crate::line_reader::LineReader;
use crate::replying::answer_line;
use crate::script_end::ScriptEnd;
use front_api::Front;
use gno_io::{Sink, Source};
use gno_num::Failed;
use rest_api::Api;
use std::alloc::Global;

/// No more lines come than bytes may be taken, since each of them has its end.
const MOST_LINES: u64 = 1 << 40;

/// Serves a script up to its end: answers each of its lines as it comes, and writes the reply before the
/// next one is read. A line has at most 1,048,576 bytes, and a line feed ends it, the last one too.
pub fn serve_script<F: Front, S: Source, K: Sink>(
    api: &Api,
    front: &mut F,
    alloc: Global,
    source: &mut S,
    sink: &mut K,
) -> ScriptEnd
    // What was taken, asked and written, and why it ended.
    ensures serves { ServesScript F.stands front.old front.new (S.left source.old) (S.left source.new)
        (K.taken sink.old) (K.taken sink.new) result }
    ensures read_cause { result ≡ ScriptEnd.ReadFault → Rose (S.faults source.old) (S.faults source.new) }
    ensures write_cause { result ≡ ScriptEnd.WriteFault → Rose (K.faults sink.old) (K.faults sink.new) }
    ensures source_later { S.faults source.old ≤ S.faults source.new }
    ensures sink_later { K.faults sink.old ≤ K.faults sink.new }
    ensures same { (F.sack_count front.new ≡ F.sack_count front.old) × (F.duty front.new ≡ F.duty front.old) × (F.made front.new ≡ F.made front.old) }
{
    let Ok(mut lines) = LineReader::new(alloc) else {
        return ScriptEnd::Memory;
    };
    let mut text = Vec::new(alloc);
    for _served in 0..MOST_LINES {
        if let Some(end) = serve_line(api, front, alloc, &mut lines, &mut text, source, sink) {
            return end;
        }
    }
    ScriptEnd::TooMuch
}

/// Answers the next line. Gives the end where there is none.
fn serve_line<F: Front, S: Source, K: Sink>(
    api: &Api,
    front: &mut F,
    alloc: Global,
    lines: &mut LineReader,
    text: &mut Vec<u8>,
    source: &mut S,
    sink: &mut K,
) -> Option<ScriptEnd>
    ensures on { IfNone result (ServesLine F.stands front.old front.new lines.old lines.new
        (S.left source.old) (S.left source.new) (K.taken sink.old) (K.taken sink.new)) }
    ensures end { IfSome result (StopsScript F.stands front.old front.new lines.old lines.new
        (S.left source.old) (S.left source.new) (K.taken sink.old) (K.taken sink.new)) }
    ensures read_cause { result ≡ Some ScriptEnd.ReadFault → Rose (S.faults source.old) (S.faults source.new) }
    ensures write_cause { result ≡ Some ScriptEnd.WriteFault → Rose (K.faults sink.old) (K.faults sink.new) }
    ensures source_later { S.faults source.old ≤ S.faults source.new }
    ensures sink_later { K.faults sink.old ≤ K.faults sink.new }
    ensures same { (F.sack_count front.new ≡ F.sack_count front.old) × (F.duty front.new ≡ F.duty front.old) × (F.made front.new ≡ F.made front.old) }
{
    let len = match lines.next_line(source) {
        Ok(len) => len,
        Err(end) => return Some(end),
    };
    match answer_line(api, front, alloc, sink, text, lines.front(len)) {
        Ok(()) => {
            lines.pass(len + 1);
            None
        }
        Err(Failed) => Some(ScriptEnd::WriteFault),
    }
}
