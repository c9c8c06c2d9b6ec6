// The messages of a connection, one after another.
ghost use Rattle.std.specs.Prelude.{◌≡◌, ◌≤◌, ◌+◌, ◌++◌, ℕ, List, [], Option, length, false, true, IfNone, IfSome, OnOk, OnErr, None, Some};
ghost use Rattle.std.specs.Io.KnownBytes.{Appends};
ghost use Rattle.front_api.specs.Seen.{LeadsTo, SeenBooks};
ghost use Rattle.gno_num.specs.Faults.{Rose};
ghost use Rattle.http_conn.specs.Answer.{Ends};
ghost use Rattle.http_conn.specs.Message.{IsHeadOf};
ghost use Rattle.rest_api.specs.Doing.{TellsError};
ghost use Rattle.rest_replies.specs.declared.handled.Handled.{Handled};
ghost use Rattle.httparse.specs.Grammar.{RequestHead, print_request};
ghost use Rattle.rest_api.specs.Message.{IsResponse, IsTaken, Responds, asks_head, continue_if};
ghost use Rattle.rest_api.specs.Session.{EndsSo, GoesOn, GoesOnFrom, Serves, Stops, Writes, WritesFront, end_of};

use crate::conn_end::ConnEnd;
use crate::handling::{Api, handle};
use front_api::Front;
use gno_io::{Sink, Source, put_all};
use gno_num::{Failed, Memory};
use http_conn::{Conn, Head, HeadEnd};
use rest_replies::{Handled, RestError, continue_response, no_memory_response, write_response};
use std::alloc::Global;

/// No more messages come than bytes may be taken, since each of them has some.
const MOST_MESSAGES: u64 = 1 << 40;

/// Serves a connection up to its end: reads its messages, handles each, and writes the responses. Where
/// a message is refused by its head, or asks to close the connection, that is answered, and the
/// connection ends.
pub fn serve_stream<F: Front, S: Source, K: Sink>(
    api: &Api,
    front: &mut F,
    alloc: Global,
    source: &mut S,
    sink: &mut K,
) -> ConnEnd
    // What was taken, asked and written.
    ensures serves { Serves F.stands front.old front.new (S.left source.old) (S.left source.new)
        (K.taken sink.old) (K.taken sink.new) result }
    // Why it ended.
    ensures read_cause { result ≡ ConnEnd.ReadFault → Rose (S.faults source.old) (S.faults source.new) }
    ensures write_cause { result ≡ ConnEnd.WriteFault → Rose (K.faults sink.old) (K.faults sink.new) }
    ensures source_later { S.faults source.old ≤ S.faults source.new }
    ensures sink_later { K.faults sink.old ≤ K.faults sink.new }
    ensures same { (F.sack_count front.new ≡ F.sack_count front.old) × (F.duty front.new ≡ F.duty front.old) × (F.made front.new ≡ F.made front.old) }
{
    let Ok(mut conn) = Conn::new(alloc) else {
        return ConnEnd::Memory;
    };
    for _served in 0..MOST_MESSAGES {
        if let Some(end) = serve_next(api, front, alloc, &mut conn, source, sink) {
            return end;
        }
    }
    ConnEnd::TooMuch
}

/// Serves the next message. Gives the end where the connection ends with it.
fn serve_next<F: Front, S: Source, K: Sink>(
    api: &Api,
    front: &mut F,
    alloc: Global,
    conn: &mut Conn,
    source: &mut S,
    sink: &mut K,
) -> Option<ConnEnd>
    ensures on { IfNone result (GoesOn F.stands front.old front.new conn.old conn.new
        (S.left source.old) (S.left source.new) (K.taken sink.old) (K.taken sink.new)) }
    ensures end { IfSome result (Stops F.stands front.old front.new conn.old.given conn.old.bytes
        (S.left source.old) (S.left source.new) (K.taken sink.old) (K.taken sink.new)) }
    ensures read_cause { result ≡ Some ConnEnd.ReadFault → Rose (S.faults source.old) (S.faults source.new) }
    ensures write_cause { result ≡ Some ConnEnd.WriteFault → Rose (K.faults sink.old) (K.faults sink.new) }
    ensures source_later { S.faults source.old ≤ S.faults source.new }
    ensures sink_later { K.faults sink.old ≤ K.faults sink.new }
    ensures same { (F.sack_count front.new ≡ F.sack_count front.old) × (F.duty front.new ≡ F.duty front.old) × (F.made front.new ≡ F.made front.old) }
{
    match conn.next_head(source) {
        Ok(head) => match serve_message(api, front, alloc, conn, source, sink, &head) {
            None => None,
            Some(end) => Some(end),
        },
        Err(end) => Some(end_head(alloc, sink, end)),
    }
}

/// Serves the message whose head was taken.
fn serve_message<F: Front, S: Source, K: Sink>(
    api: &Api,
    front: &mut F,
    alloc: Global,
    conn: &mut Conn,
    source: &mut S,
    sink: &mut K,
    head: &Head,
) -> Option<ConnEnd>
    requires { head.now.length ≤ 4194304 }
    ensures on { IfNone result ((h : RequestHead) → IsHeadOf h head.now → GoesOnFrom F.stands front.old front.new h conn.old conn.new
        (S.left source.old) (S.left source.new) (K.taken sink.old) (K.taken sink.new)) }
    ensures end { IfSome result (λ end. (h : RequestHead) (given : ℕ) → IsTaken h → IsHeadOf h head.now
        → conn.old.given ≡ given + length (print_request h)
        → Stops F.stands front.old front.new given (print_request h ++ conn.old.bytes)
        (S.left source.old) (S.left source.new) (K.taken sink.old) (K.taken sink.new) end) }
    ensures read_cause { result ≡ Some ConnEnd.ReadFault → Rose (S.faults source.old) (S.faults source.new) }
    ensures write_cause { result ≡ Some ConnEnd.WriteFault → Rose (K.faults sink.old) (K.faults sink.new) }
    ensures source_later { S.faults source.old ≤ S.faults source.new }
    ensures sink_later { K.faults sink.old ≤ K.faults sink.new }
    ensures same { (F.sack_count front.new ≡ F.sack_count front.old) × (F.duty front.new ≡ F.duty front.old) × (F.made front.new ≡ F.made front.old) }
{
    if let Err(Failed) = send_continue(sink, head.wants_continue) {
        return Some(ConnEnd::WriteFault);
    }
    match conn.take_body(source, head.length) {
        Ok(body) => match answer_message(api, front, alloc, sink, head, &body) {
            Ok(()) if head.close => Some(ConnEnd::Closed),
            Ok(()) => None,
            Err(Failed) => Some(ConnEnd::WriteFault),
        },
        Err(end) => Some(end_of(end)),
    }
}

/// How the connection ends where no head or no body came.
fn end_of(end: HeadEnd) -> ConnEnd
    ensures { result ≡ end_of end }
{
    match end {
        HeadEnd::End => ConnEnd::Ended,
        HeadEnd::Cut => ConnEnd::Cut,
        HeadEnd::BadHead
        | HeadEnd::HeadTooLarge
        | HeadEnd::Coding
        | HeadEnd::NoLength
        | HeadEnd::BodyTooLarge => ConnEnd::Refused,
        HeadEnd::TooMuch => ConnEnd::TooMuch,
        HeadEnd::ReadFault => ConnEnd::ReadFault,
        HeadEnd::Memory => ConnEnd::Memory,
    }
}

/// Tells a client that waits to go on.
fn send_continue<K: Sink>(sink: &mut K, waits: bool) -> Result<(), Failed>
    ensures ok { OnOk result (Appends (K.taken sink.old) (K.taken sink.new) (continue_if waits)) }
    ensures err { OnErr result ((text : List ℕ) × (more : List ℕ) × (text ++ more ≡ continue_if waits)
        × Appends (K.taken sink.old) (K.taken sink.new) text) }
    ensures later { K.faults sink.old ≤ K.faults sink.new }
    ensures cause { OnErr result (Rose (K.faults sink.old) (K.faults sink.new)) }
{
    if !waits {
        return Ok(());
    }
    match put_front(sink, continue_response()) {
        Ok(()) => Ok(()),
        Err(fault) => Err(fault),
    }
}

/// Handles a message, and writes its response.
fn answer_message<F: Front, K: Sink>(
    api: &Api,
    front: &mut F,
    alloc: Global,
    sink: &mut K,
    head: &Head,
    body: &[u8],
) -> Result<(), Failed>
    ensures ok { OnOk result (Writes F.stands front.old front.new
        (Responds head.now.method.items head.now.target.items body.now head.now.close)
        (K.taken sink.old) (K.taken sink.new)) }
    ensures err { OnErr result (WritesFront F.stands front.old front.new
        (Responds head.now.method.items head.now.target.items body.now head.now.close)
        (K.taken sink.old) (K.taken sink.new)) }
    ensures later { K.faults sink.old ≤ K.faults sink.new }
    ensures cause { OnErr result (Rose (K.faults sink.old) (K.faults sink.new)) }
    ensures same { (F.sack_count front.new ≡ F.sack_count front.old) × (F.duty front.new ≡ F.duty front.old) × (F.made front.new ≡ F.made front.old) }
{
    let answer = handle(api, front, alloc, &head.method, &head.target, body);
    match respond(alloc, sink, &answer, asks_head(&head.method), head.close) {
        Ok(()) => Ok(()),
        Err(fault) => Err(fault),
    }
}

/// Whether the method is `HEAD`.
fn asks_head(method: &[u8]) -> bool
    ensures { result ≡ asks_head method.now }
{
    method == b"HEAD".as_slice()
}

/// Writes the response to a request, or that there was no memory for it.
fn respond<K: Sink>(
    alloc: Global,
    sink: &mut K,
    answer: &Handled,
    is_head: bool,
    close: bool,
) -> Result<(), Failed>
    ensures ok { OnOk result ((text : List ℕ) × IsResponse is_head close answer.now text
        × Appends (K.taken sink.old) (K.taken sink.new) text) }
    ensures err { OnErr result ((text : List ℕ) × (more : List ℕ) × IsResponse is_head close answer.now (text ++ more)
        × Appends (K.taken sink.old) (K.taken sink.new) text) }
    ensures later { K.faults sink.old ≤ K.faults sink.new }
    ensures cause { OnErr result (Rose (K.faults sink.old) (K.faults sink.new)) }
{
    let mut text = Vec::new(alloc);
    match put_front(sink, response_in(answer, is_head, close, &mut text)) {
        Ok(()) => Ok(()),
        Err(fault) => Err(fault),
    }
}

/// The response to a request, or that there was no memory for it.
fn response_in<'t>(answer: &Handled, is_head: bool, close: bool, text: &'t mut Vec<u8>) -> &'t [u8]
    requires { text.old.items ≡ [] }
    ensures { IsResponse is_head close answer.now result.now }
{
    match write_response(answer, is_head, close, text) {
        Ok(()) => text.as_slice(),
        Err(Memory) => no_memory_response(is_head, close),
    }
}

/// Writes all of a text, or a first part of it where the sink fails.
fn put_front<K: Sink>(sink: &mut K, text: &[u8]) -> Result<(), Failed>
    ensures ok { OnOk result (Appends (K.taken sink.old) (K.taken sink.new) text.now) }
    ensures err { OnErr result ((front : List ℕ) × (more : List ℕ) × (front ++ more ≡ text.now)
        × Appends (K.taken sink.old) (K.taken sink.new) front) }
    ensures later { K.faults sink.old ≤ K.faults sink.new }
    ensures cause { OnErr result (Rose (K.faults sink.old) (K.faults sink.new)) }
{
    match put_all(sink, text) {
        Ok(()) => Ok(()),
        Err(fault) => Err(fault),
    }
}

/// Ends a connection of which no head came; where one is refused, that is answered.
fn end_head<K: Sink>(alloc: Global, sink: &mut K, end: HeadEnd) -> ConnEnd
    ensures ends { (given : ℕ) (held : List ℕ) (left : Option (List ℕ)) → Ends end (record { bytes = held; given = given }) left
        → (last : List ℕ) × Appends (K.taken sink.old) (K.taken sink.new) last
        × ((books : SeenBooks) → EndsSo given held left result last books books) }
    ensures later { K.faults sink.old ≤ K.faults sink.new }
    ensures read_cause { result ≡ ConnEnd.ReadFault → end ≡ HeadEnd.ReadFault }
    ensures write_cause { result ≡ ConnEnd.WriteFault → Rose (K.faults sink.old) (K.faults sink.new) }
{
    match RestError::of_head(end) {
        Some(error) => match refuse(alloc, sink, error) {
            Ok(()) => ConnEnd::Refused,
            Err(Failed) => ConnEnd::WriteFault,
        },
        None => end_of(end),
    }
}

/// Answers a message that is refused by its head.
fn refuse<K: Sink>(alloc: Global, sink: &mut K, error: RestError) -> Result<(), Failed>
    ensures ok { OnOk result ((answer : Handled) × (text : List ℕ) × TellsError error None answer
        × IsResponse false true answer text × Appends (K.taken sink.old) (K.taken sink.new) text) }
    ensures err { OnErr result ((answer : Handled) × (text : List ℕ) × (more : List ℕ) × TellsError error None answer
        × IsResponse false true answer (text ++ more) × Appends (K.taken sink.old) (K.taken sink.new) text) }
    ensures later { K.faults sink.old ≤ K.faults sink.new }
    ensures cause { OnErr result (Rose (K.faults sink.old) (K.faults sink.new)) }
{
    let answer = Handled::of_error(alloc, error, None);
    match respond(alloc, sink, &answer, false, true) {
        Ok(()) => Ok(()),
        Err(fault) => Err(fault),
    }
}
