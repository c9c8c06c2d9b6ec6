// A connection, and its next head.
ghost use Rattle.std.specs.Prelude.{◌≡◌, ◌≢◌, ℕ, ◌+◌, ◌^◌, ◌<◌, ◌≤◌, List, [], ◌++◌, length, drop, take, Err, IfOk, OnOk, IfErr, OnErr, IfSome, IfNone, IsSomeAnd};
ghost use Rattle.std.specs.Io.KnownBytes.{Consumes, Keeps, IsAtEnd};
ghost use Rattle.gno_num.specs.Faults.{Rose};
ghost use Rattle.httparse.specs.Grammar.{RequestHead, NeverHasRequest};
ghost use Rattle.httparse.specs.Spans.{IsRequestWithin, IsRequestAt, IsRequestOf};
ghost use Rattle.http_conn.specs.Bytes.{GivesOut, to_come};
ghost use Rattle.http_conn.specs.Message.{refusal, IsHeadOf};
ghost use Rattle.http_conn.specs.Answer.{IsOpen, IsSparing, GivesHead, IsGiven, IsNoHead, Ends, Answers, EndsBody};

use crate::body::fill;
use crate::framing::framing_of;
use crate::head::{Head, HeadEnd};
use crate::window::{LARGEST_HEAD, Window};
use gno_io::Source;
use gno_num::Memory;
use httparse::Status;
use httparse::spans::{EMPTY_HEADER_SPAN, HeaderSpan, RequestSpans, parse_request};
use std::alloc::Global;
use std::marker::Model;

/// The bytes that are taken at most.
const MOST_BYTES: u64 = 1 << 40;

/// The room for header lines, more than fit into a head.
const MOST_LINES: usize = 5_462;

/// The bytes of a connection that came and weren't given out yet. It takes its memory once.
#[derive(Debug, Drop)]
pub struct Conn {
    window: Window,
    lines: Vec<HeaderSpan>,
    given: u64,
}

impl Model for Conn {
    ghost use Rattle.std.specs.Prelude.{◌≡◌, ◌+◌, ◌^◌, ◌≤◌, length};
    ghost use Rattle.http_conn.specs.Bytes.{Held};

    ghost Value = { Held };

    ghost view = { λ c. record { bytes = c.window; given = c.given } };

    ghost invariant = { λ c. (c.given + length c.window ≤ 2 ^ 40) × (length c.lines.items ≡ 5462) };
}

/// What the bytes held are of a head.
#[derive(Clone, Copy)]
enum Seen {
    /// A head is there.
    Whole(RequestSpans),
    /// More bytes may make one.
    Open,
    /// No bytes that follow make one.
    Never,
}

/// What the first bytes are of a head.
fn look(bytes: &[u8], lines: &mut [HeaderSpan]) -> Seen
    requires few { length bytes.now ≤ 16384 }
    requires room { length lines.old ≡ 5462 }
    ensures whole { (spans : RequestSpans) → result ≡ Seen.Whole spans → IsRequestOf bytes.now lines.new spans }
    ensures within { (spans : RequestSpans) → result ≡ Seen.Whole spans → IsRequestWithin bytes.now lines.new spans }
    ensures open { result ≡ Seen.Open → IsOpen bytes.now }
    ensures never { result ≡ Seen.Never → NeverHasRequest bytes.now }
{
    match parse_request(bytes, lines) {
        Ok(Status::Complete(spans)) => Seen::Whole(spans),
        Ok(Status::Partial) => Seen::Open,
        Err(_) => Seen::Never,
    }
}

/// What is told of the head that the spans cover.
fn head_of(
    alloc: Global,
    bytes: &[u8],
    lines: &[HeaderSpan],
    spans: RequestSpans,
) -> Result<Head, HeadEnd>
    requires within { IsRequestWithin bytes.now lines.now spans }
    ensures ok { IfOk result (λ head. (h : RequestHead) → IsRequestAt bytes.now lines.now spans h → IsHeadOf h head) }
    ensures err { IfErr result (λ end. end ≢ HeadEnd.Memory → (h : RequestHead) → IsRequestAt bytes.now lines.now spans h
        → refusal h ≡ Some end) }
{
    let headers = &lines[..spans.headers];
    let method = spans.method.of(bytes);
    let framing = framing_of(bytes, method, spans.version, headers)?;
    let target = Vec::from_slice(alloc, spans.path.of(bytes))?;
    let method = Vec::from_slice(alloc, method)?;
    Ok(Head {
        method,
        target,
        length: framing.length,
        close: framing.close,
        wants_continue: framing.wants_continue,
    })
}

/// A head, and how many bytes it takes.
#[derive(Drop)]
struct Found {
    head: Head,
    len: usize,
}

/// The head at the front of these bytes, if one is there.
fn read_head(
    alloc: Global,
    bytes: &[u8],
    lines: &mut [HeaderSpan],
) -> Result<Option<Found>, HeadEnd>
    requires few { length bytes.now ≤ 16384 }
    requires room { length lines.old ≡ 5462 }
    ensures given { IfOk result (λ found. IfSome found (λ f. IsGiven 16384 bytes.now f.head (drop f.len bytes.now))) }
    ensures len { IfOk result (λ found. IfSome found (λ f. f.len ≤ length bytes.now)) }
    ensures open { IfOk result (λ found. IfNone found (IsOpen bytes.now)) }
    ensures end { IfErr result (λ end. IsNoHead end bytes.now) }
{
    match look(bytes, lines) {
        Seen::Open => Ok(None),
        Seen::Never => Err(HeadEnd::BadHead),
        Seen::Whole(spans) => match head_of(alloc, bytes, lines, spans) {
            Ok(head) => Ok(Some(Found {
                head,
                len: spans.len,
            })),
            Err(end) => Err(end),
        },
    }
}

impl Conn {
    /// A connection of which no byte came yet.
    pub fn new(alloc: Global) -> Result<Conn, Memory>
        ensures bytes { IfOk result (λ conn. conn.bytes ≡ []) }
        ensures given { IfOk result (λ conn. conn.given ≡ 0) }
    {
        let window = Window::new(alloc)?;
        let lines = vec![in alloc; EMPTY_HEADER_SPAN; MOST_LINES]?;
        Ok(Conn {
            window,
            lines,
            given: 0,
        })
    }

    /// The head at the front of the bytes held, which is then given out.
    fn held_head(&mut self) -> Result<Option<Head>, HeadEnd>
        ensures given { IfOk result (λ found. IfSome found (λ head. IsGiven 16384 self.old.bytes head self.new.bytes)) }
        ensures counted { OnOk result (self.old.given + length self.old.bytes ≡ self.new.given + length self.new.bytes) }
        ensures open { IfOk result (λ found. IfNone found (IsOpen self.old.bytes × (self.new ≡ self.old))) }
        ensures end { IfErr result (λ end. IsNoHead end self.old.bytes) }
        ensures unchanged { OnErr result (self.new ≡ self.old) }
        ensures few { length self.new.bytes ≤ 16384 }
        ensures bound { self.new.given + length self.new.bytes ≤ 2 ^ 40 }
    {
        let alloc = *self.lines.allocator();
        match read_head(alloc, self.window.bytes(), &mut self.lines) {
            Ok(None) => Ok(None),
            Ok(Some(found)) => {
                self.window.skip(found.len);
                self.given += found.len as u64;
                Ok(Some(found.head))
            }
            Err(end) => Err(end),
        }
    }

    /// Takes more bytes, since those held are no head yet.
    fn take_more<S: Source>(&mut self, source: &mut S) -> Result<(), HeadEnd>
        requires open { IsOpen self.old.bytes }
        ensures taken { OnOk result (GivesOut self.old self.new (S.left source.old) (S.left source.new) []) }
        ensures more { OnOk result (length self.old.bytes < length self.new.bytes) }
        ensures few { length self.new.bytes ≤ 16384 }
        ensures bound { self.new.given + length self.new.bytes ≤ 2 ^ 40 }
        ensures unchanged { OnErr result (self.new ≡ self.old) }
        ensures kept { OnErr result (Keeps (S.left source.old) (S.left source.new)) }
        ensures end { IfErr result (λ end. Ends end self.new (S.left source.new)) }
        ensures cause { result ≡ Err HeadEnd.ReadFault → Rose (S.faults source.old) (S.faults source.new) }
        ensures later { S.faults source.old ≤ S.faults source.new }
    {
        let held = self.window.len();
        if held == LARGEST_HEAD {
            return Err(HeadEnd::HeadTooLarge);
        }
        let most = (MOST_BYTES - self.given - held as u64).min(LARGEST_HEAD as u64) as usize;
        if most == 0 {
            return Err(HeadEnd::TooMuch);
        }
        match self.window.take_from(source, most) {
            Ok(0) if held == 0 => Err(HeadEnd::End),
            Ok(0) => Err(HeadEnd::Cut),
            Ok(_) => Ok(()),
            Err(_) => Err(HeadEnd::ReadFault),
        }
    }

    /// The next head. Where there is none, the bytes that came are held.
    pub fn next_head<S: Source>(&mut self, source: &mut S) -> Result<Head, HeadEnd>
        // What the bytes to come say, however they come, where the source tells them.
        ensures answer { IfSome (to_come self.old (S.left source.old)) (λ input.
            IsSomeAnd (to_come self.new (S.left source.new)) (Answers self.old.given input result)) }

        // What was taken, given and held.
        ensures head { IfOk result (GivesHead self.old self.new (S.left source.old) (S.left source.new)) }
        ensures kept { OnErr result (GivesOut self.old self.new (S.left source.old) (S.left source.new) []) }
        ensures sparing { OnErr result (IsSparing self.old.bytes self.new.bytes) }
        ensures unread { ¬ (IsOpen self.old.bytes) → source.new ≡ source.old }

        // Why there is no head.
        ensures end { IfErr result (λ end. Ends end self.new (S.left source.new)) }
        ensures cause { result ≡ Err HeadEnd.ReadFault → Rose (S.faults source.old) (S.faults source.new) }
        ensures later { S.faults source.old ≤ S.faults source.new }
    {
        'pieces: loop {
            match self.held_head()? {
                Some(head) => return Ok(head),
                None => self.take_more(source)?,
            }
        }
    }

    /// The next `size` bytes. Where they don't all come, those that did are dropped.
    pub fn take_body<S: Source>(&mut self, source: &mut S, size: u64) -> Result<Vec<u8>, HeadEnd>
        requires { size ≤ 4194304 }
        // What was taken, given and held.
        ensures body { IfOk result (λ body. GivesOut self.old self.new (S.left source.old) (S.left source.new) body.items) }
        ensures size { IfOk result (λ body. length body.items ≡ size) }
        ensures held { OnOk result (self.new.bytes ≡ drop size self.old.bytes) }
        ensures dropped { OnErr result ((part : List ℕ) × GivesOut self.old self.new (S.left source.old) (S.left source.new) part) }
        ensures unread { size ≤ length self.old.bytes → source.new ≡ source.old }

        // Why there is no body.
        ensures end { IfErr result (λ end. EndsBody end size self.old self.new (S.left source.old) (S.left source.new)) }
        ensures cause { result ≡ Err HeadEnd.ReadFault → Rose (S.faults source.old) (S.faults source.new) }
        ensures later { S.faults source.old ≤ S.faults source.new }
    {
        let alloc = *self.lines.allocator();
        let mut body = match vec![in alloc; 0; size as usize] {
            Ok(body) => body,
            Err(_) => return Err(HeadEnd::Memory),
        };
        let held = self.window.len().min(body.len());
        let most = MOST_BYTES - self.given - held as u64;
        let reading = fill(source, &self.window.bytes()[..held], &mut body, most);
        self.window.skip(held);
        self.given += (held + reading.count) as u64;
        if let Some(end) = reading.end {
            return Err(end);
        }
        Ok(body)
    }
}
