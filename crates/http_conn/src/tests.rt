ghost use Rattle.std.specs.Prelude.{◌≤◌, ℕ, None, length, IfOk, OnErr};
ghost use Rattle.std.specs.Io.KnownBytes.{ReadConsumes};
ghost use Rattle.gno_num.specs.Faults.{Rose};

use crate::{Conn, Head, HeadEnd};
use gno_io::{MemSource, Source};
use gno_num::Failed;
use std::alloc::Global;
use std::process::Abort;
use std::test::Fail;

const POST: &[u8] =
    b"POST /v1/metric/00000001-0000-8000-8000-000000000001/measures HTTP/1.1\r\nHost: localhost:8041\r\nUser-Agent: curl/8.5.0\r\nAccept: */*\r\nContent-Type: application/json\r\nContent-Length: 59\r\nExpect: 100-continue\r\n\r\n[{\"timestamp\":100,\"value\":10},{\"timestamp\":110,\"value\":20}]GET /v1/metric/00000001-0000-8000-8000-000000000001/measures?refresh=true&granularity=60 HTTP/1.1\r\nHost: localhost:8041\r\n\r\n";

/// Bytes that come up to `cut` at first, then `step` at a time.
#[derive(Drop)]
struct Pieces<'a> {
    left: &'a [u8],
    first: usize,
    step: usize,
}

impl Source for Pieces<'_> {
    ghost faults = { λ _. 0 };

    ghost left = { λ _. None };

    fn take(&mut self, out: &mut [u8]) -> Result<usize, Failed> {
        let most = if self.first > 0 {
            self.first
        } else {
            self.step
        };
        let count = out.len().min(self.left.len()).min(most);
        let (front, rest) = self.left.split_at(count);
        out[..count].copy_from_slice(front);
        self.left = rest;
        self.first = self.first.saturating_sub(count);
        Ok(count)
    }
}

/// The two messages of `POST`, from a source that gives them in pieces.
fn takes_both<S: Source>(rt: &impl Abort, alloc: Global, source: &mut S) -> Result<(), Fail> {
    let mut conn = Conn::new(alloc)?;
    let post = conn.next_head(source)?;
    assert_eq!(rt; post.method.as_slice(), b"POST".as_slice());
    assert_eq!(rt;
        post.target.as_slice(),
        b"/v1/metric/00000001-0000-8000-8000-000000000001/measures".as_slice()
    );
    assert_eq!(rt; post.length, 59);
    assert!(rt; !post.close);
    assert!(rt; post.wants_continue);
    let body = conn.take_body(source, 59)?;
    assert_eq!(rt;
        body.as_slice(),
        b"[{\"timestamp\":100,\"value\":10},{\"timestamp\":110,\"value\":20}]".as_slice()
    );
    let get = conn.next_head(source)?;
    assert_eq!(rt; get.method.as_slice(), b"GET".as_slice());
    assert_eq!(rt;
        get.target.as_slice(),
        b"/v1/metric/00000001-0000-8000-8000-000000000001/measures?refresh=true&granularity=60".as_slice()
    );
    assert_eq!(rt; get.length, 0);
    assert!(rt; !get.close);
    assert!(rt; !get.wants_continue);
    assert_eq!(rt; end_of(conn.next_head(source)), Some(HeadEnd::End));
    Ok(())
}

fn end_of(answer: Result<Head, HeadEnd>) -> Option<HeadEnd> {
    match answer {
        Ok(_) => None,
        Err(end) => Some(end),
    }
}

#[test]
fn messages_come_in_any_pieces(rt: HostRuntime) -> Result<(), Fail> {
    let alloc = rt.alloc();
    for first in 0..POST.len() {
        let mut source = Pieces {
            left: POST,
            first,
            step: POST.len(),
        };
        takes_both(&rt, alloc, &mut source)?;
    }
    for step in 1..8 {
        let mut source = Pieces {
            left: POST,
            first: 0,
            step,
        };
        takes_both(&rt, alloc, &mut source)?;
    }
    Ok(())
}

#[test]
fn heads_are_refused(rt: HostRuntime) -> Result<(), Fail> {
    let alloc = rt.alloc();
    let refused: [(&[u8], HeadEnd); 19] = [
        (b"", HeadEnd::End),
        (b"\r\n", HeadEnd::Cut),
        (b"GET / HTTP/1.1\r\nHost: a\r\n", HeadEnd::Cut),
        (b"GET  / HTTP/1.1\r\nHost: a\r\n\r\n", HeadEnd::BadHead),
        (b"GET / HTTP/2.0\r\nHost: a\r\n\r\n", HeadEnd::BadHead),
        (b"GET / HTTP/1.1\r\nHost : a\r\n\r\n", HeadEnd::BadHead),
        (b"GET / HTTP/1.1\r\n\r\n", HeadEnd::BadHead),
        (
            b"GET / HTTP/1.1\r\nHost: a\r\nhost: a\r\n\r\n",
            HeadEnd::BadHead,
        ),
        (
            b"GET / HTTP/1.1\r\nHost: a\r\nContent-Length:\r\n\r\n",
            HeadEnd::BadHead,
        ),
        (
            b"GET / HTTP/1.1\r\nHost: a\r\nContent-Length: +1\r\n\r\n",
            HeadEnd::BadHead,
        ),
        (
            b"GET / HTTP/1.0\r\nContent-Length: 1, 1\r\n\r\n",
            HeadEnd::BadHead,
        ),
        (
            b"POST / HTTP/1.0\r\nContent-Length: 1\r\ncontent-length: 01\r\n\r\n",
            HeadEnd::BadHead,
        ),
        (
            b"POST / HTTP/1.1\r\nTransfer-Encoding: chunked\r\n\r\n",
            HeadEnd::BadHead,
        ),
        (
            b"POST / HTTP/1.1\r\nHost: a\r\nTRANSFER-ENCODING: chunked\r\n\r\n",
            HeadEnd::Coding,
        ),
        (
            b"POST / HTTP/1.0\r\nTransfer-Encoding: a\r\nContent-Length: 5000000\r\n\r\n",
            HeadEnd::Coding,
        ),
        (b"POST / HTTP/1.1\r\nHost: a\r\n\r\n", HeadEnd::NoLength),
        (b"POST / HTTP/1.0\r\n\r\n", HeadEnd::NoLength),
        (
            b"PUT / HTTP/1.0\r\nContent-Length: 4194305\r\n\r\n",
            HeadEnd::BodyTooLarge,
        ),
        (
            b"POST / HTTP/1.0\r\nContent-Length: 99999999999999999999999\r\n\r\n",
            HeadEnd::BodyTooLarge,
        ),
    ];
    for (bytes, end) in refused {
        let mut conn = Conn::new(alloc)?;
        let mut source = Pieces {
            left: bytes,
            first: 0,
            step: bytes.len(),
        };
        assert_eq!(rt; end_of(conn.next_head(&mut source)), Some(end));
    }
    Ok(())
}

#[test]
fn heads_tell_what_follows(rt: HostRuntime) -> Result<(), Fail> {
    let alloc = rt.alloc();
    // The length, whether the connection closes, and whether the client waits.
    let given: [(&[u8], (u64, bool, bool)); 9] = [
        (b"GET / HTTP/1.1\nHost: a\n\n", (0, false, false)),
        (
            b"\r\n\r\nDELETE /a HTTP/1.1\r\nhOST:a\r\n\r\n",
            (0, false, false),
        ),
        (b"GET / HTTP/1.0\r\n\r\n", (0, true, false)),
        (
            b"POST / HTTP/1.0\r\nContent-Length: 4194304\r\nExpect: 100-continue\r\n\r\n",
            (4194304, true, false),
        ),
        (
            b"GET / HTTP/1.1\r\nHost: a\r\nConnection: Close\r\n\r\n",
            (0, true, false),
        ),
        (
            b"GET / HTTP/1.1\r\nHost: a\r\nConnection: a,\t closed\r\nCONNECTION: keep-alive , CLOSE\t,b\r\n\r\n",
            (0, true, false),
        ),
        (
            b"GET / HTTP/1.1\r\nHost: a\r\nConnection: not-close, close-not\r\n\r\n",
            (0, false, false),
        ),
        (
            b"PUT / HTTP/1.1\r\nHost: a\r\ncontent-length: 007\r\nContent-Length:\t007 \r\nexpect: 100-Continue\r\n\r\n",
            (7, false, true),
        ),
        (
            b"POST / HTTP/1.1\r\nHost: a\r\nContent-Length: 0\r\nExpect: 100-continue\r\n\r\n",
            (0, false, false),
        ),
    ];
    for (bytes, told) in given {
        let mut conn = Conn::new(alloc)?;
        let mut source = Pieces {
            left: bytes,
            first: 0,
            step: bytes.len(),
        };
        let head = conn.next_head(&mut source)?;
        assert_eq!(rt; (head.length, head.close, head.wants_continue), told);
    }
    Ok(())
}

#[test]
fn a_head_has_its_room_and_no_more(rt: HostRuntime) -> Result<(), Fail> {
    let alloc = rt.alloc();
    // The head takes 23 bytes beside the value.
    let sizes = [(16_361, None), (16_362, Some(HeadEnd::HeadTooLarge))];
    for (size, end) in sizes {
        let mut bytes = b"GET / HTTP/1.0\r\nA: ".to_vec(alloc)?;
        let value = vec![in alloc; b'x'; size]?;
        bytes.extend_from_slice(&value)?;
        bytes.extend_from_slice(b"\r\n\r\n")?;
        let mut source = MemSource::new(bytes, Vec::new(alloc));
        let mut conn = Conn::new(alloc)?;
        assert_eq!(rt; end_of(conn.next_head(&mut source)), end);
    }
    Ok(())
}

#[test]
fn a_fault_loses_no_head(rt: HostRuntime) -> Result<(), Fail> {
    let alloc = rt.alloc();
    let bytes = b"PUT / HTTP/1.0\r\nContent-Length: 9\r\n\r\n12345".to_vec(alloc)?;
    let mut source = MemSource::new(bytes, [0].to_vec(alloc)?);
    let mut conn = Conn::new(alloc)?;
    assert_eq!(rt;
        end_of(conn.next_head(&mut source)),
        Some(HeadEnd::ReadFault)
    );
    let head = conn.next_head(&mut source)?;
    assert_eq!(rt; head.length, 9);
    assert_eq!(rt; conn.take_body(&mut source, 9).err(), Some(HeadEnd::Cut));
    Ok(())
}
