// Scripts over a small front, worked by hand.
ghost use Rattle.std.specs.Prelude.{[]};

use crate::{ScriptEnd, serve_script};
use front_api::{AnswerFault, Command, ControlFault, Front, Histories, Reply, SackFault};
use gno_io::{MemSink, MemSource};
use rest_api::Api;
use series_model::{Answer, Batch, MetricId, Query};
use std::alloc::Global;
use std::test::Fail;

/// A front without metrics, whose every drain takes three turns. Its histories tell nothing.
#[derive(Drop)]
struct Desk {}

impl Histories for Desk {
    type Made = ();

    ghost stands = { λ _ _. ⊥ };

    ghost sack_count = { λ _. 1 };

    ghost duty = { λ _. record { refusals = record { stale = 0; starved = 0; faults = 0 }; last_claims = [] } };

    ghost made = { λ _. tt };
}

impl Front for Desk {
    fn post(
        &mut self,
        _alloc: Global,
        _metric: MetricId,
        _batch: &Batch,
    ) -> Result<u64, SackFault> {
        Err(SackFault::Unknown)
    }

    fn refresh(&mut self, _alloc: Global, _metric: MetricId) -> Result<u64, SackFault> {
        Err(SackFault::Unknown)
    }

    fn answer(
        &mut self,
        _alloc: Global,
        _metric: MetricId,
        _query: &Query,
    ) -> Result<Answer, AnswerFault> {
        Err(AnswerFault::Unknown)
    }

    fn drain(&mut self, _alloc: Global) -> Result<u64, SackFault> {
        Ok(3)
    }

    fn control(&mut self, _alloc: Global, _command: &Command) -> Result<Reply, ControlFault> {
        Err(ControlFault::Memory)
    }
}

const LINES: &[u8] = b"# none\n\nWORK\nGET /v1/metric\nGET  /\nGET /\nWORK";

const FIRST: &[u8] = b"200 {\"jobs\":3}\n";

const REPLIES: &[u8] =
    b"200 {\"jobs\":3}\n500 {\"error\":\"memory\"}\n400 {\"error\":\"bad-line\"}\n404 {\"error\":\"no-route\"}\n";

#[test]
fn ends(rt: HostRuntime) -> Result<(), Fail> {
    let alloc = rt.alloc();
    let api = Api::new(alloc)?;
    let whole = &LINES[..LINES.len() - 4];
    let cases = [
        (whole, 9, 9, ScriptEnd::Ended, REPLIES),
        (LINES, 9, 9, ScriptEnd::Cut, REPLIES),
        (LINES, 1, 9, ScriptEnd::ReadFault, REPLIES),
        (LINES, 9, 1, ScriptEnd::WriteFault, FIRST),
    ];
    for (lines, read, write, end, replies) in cases {
        let mut desk = Desk {};
        let mut source = MemSource::new(
            Vec::from_slice(alloc, lines)?,
            Vec::from_array(alloc, [read])?,
        );
        let mut sink = MemSink::new(alloc, Vec::from_array(alloc, [write])?);
        let served = serve_script(&api, &mut desk, alloc, &mut source, &mut sink);
        assert_eq!(rt; served, end);
        assert_eq!(rt; sink.bytes(), replies);
    }
    Ok(())
}

#[test]
fn longest_line(rt: HostRuntime) -> Result<(), Fail> {
    let alloc = rt.alloc();
    let api = Api::new(alloc)?;
    let cases = [
        (
            1_048_576,
            ScriptEnd::Ended,
            "400 {\"error\":\"bad-line\"}\n",
        ),
        (1_048_577, ScriptEnd::TooLong, ""),
    ];
    for (size, end, replies) in cases {
        let mut desk = Desk {};
        let mut line = vec![in alloc; b'a'; size]?;
        line.push(b'\n')?;
        let mut source = MemSource::new(line, Vec::new(alloc));
        let mut sink = MemSink::new(alloc, Vec::new(alloc));
        let served = serve_script(&api, &mut desk, alloc, &mut source, &mut sink);
        assert_eq!(rt; served, end);
        assert_eq!(rt; sink.bytes(), replies.as_bytes());
    }
    Ok(())
}
