// Responses, reply lines and script lines worked by hand.
use crate::{
    ErrorCode, Handled, HttpStatus, RestError, ScriptLine, continue_response, no_memory_line,
    no_memory_response, read_line, write_reply_line, write_response,
};
use std::alloc::Global;
use std::test::Fail;

/// The response that an answer gives.
fn response_of(
    alloc: Global,
    answer: &Handled,
    is_head: bool,
    close: bool,
) -> Result<Vec<u8>, Fail> {
    let mut out = Vec::new(alloc);
    write_response(answer, is_head, close, &mut out)?;
    Ok(out)
}

/// The reply line that an answer gives.
fn line_of(alloc: Global, answer: &Handled) -> Result<Vec<u8>, Fail> {
    let mut out = Vec::new(alloc);
    write_reply_line(answer, &mut out)?;
    Ok(out)
}

#[test]
fn responses(rt: HostRuntime) -> Result<(), Fail> {
    let alloc = rt.alloc();
    let body = Vec::from_slice(alloc, b"[[\"1970-01-01T00:01:00+00:00\",60.0,15.0]]")?;
    let cases = [
        (
            Handled::without_body(alloc, HttpStatus::Accepted),
            false,
            false,
            "HTTP/1.1 202 Accepted\r\nContent-Length: 0\r\n\r\n",
        ),
        (
            Handled::with_body(HttpStatus::Okay, body),
            false,
            false,
            "HTTP/1.1 200 OK\r\nContent-Type: application/json\r\nContent-Length: 41\r\n\r\n[[\"1970-01-01T00:01:00+00:00\",60.0,15.0]]",
        ),
        (
            Handled::without_body(alloc, HttpStatus::NoContent),
            false,
            true,
            "HTTP/1.1 204 No Content\r\nConnection: close\r\n\r\n",
        ),
        (
            Handled::no_method(alloc, "GET, POST"),
            false,
            false,
            "HTTP/1.1 405 Method Not Allowed\r\nAllow: GET, POST\r\nContent-Type: application/json\r\nContent-Length: 18\r\n\r\n{\"error\":\"method\"}",
        ),
        (
            Handled::no_method(alloc, "POST"),
            true,
            true,
            "HTTP/1.1 405 Method Not Allowed\r\nConnection: close\r\nAllow: POST\r\nContent-Length: 0\r\n\r\n",
        ),
    ];
    for (answer, is_head, close, told) in cases {
        let found = response_of(alloc, &answer, is_head, close)?;
        assert_eq!(rt; found.as_slice(), told.as_bytes(), "{told}");
    }
    Ok(())
}

#[test]
fn reply_lines(rt: HostRuntime) -> Result<(), Fail> {
    let alloc = rt.alloc();
    let placed = RestError {
        status: HttpStatus::BadRequest,
        code: ErrorCode::TooLarge,
        at: Some(24),
    };
    let cases = [
        (Handled::without_body(alloc, HttpStatus::Accepted), "202\n"),
        (Handled::jobs(alloc, 1), "200 {\"jobs\":1}\n"),
        (
            Handled::of_error(alloc, placed, None),
            "400 {\"at\":24,\"error\":\"too-large\"}\n",
        ),
        (
            Handled::of_error(alloc, RestError::of(ErrorCode::MetricUnknown), Some(1)),
            "404 {\"error\":\"metric-unknown\",\"stored\":1}\n",
        ),
        (
            Handled::of_error(alloc, RestError::of(ErrorCode::Disk), None),
            "503 {\"error\":\"disk\"}\n",
        ),
        (
            Handled::of_error(alloc, RestError::of(ErrorCode::Spent), None),
            "507 {\"error\":\"spent\"}\n",
        ),
        (
            Handled::of_error(alloc, RestError::of(ErrorCode::PolicyInUse), None),
            "409 {\"error\":\"policy-in-use\"}\n",
        ),
    ];
    for (answer, told) in cases {
        let found = line_of(alloc, &answer)?;
        assert_eq!(rt; found.as_slice(), told.as_bytes(), "{told}");
    }
    Ok(())
}

/// What was read, its parts with bars between them.
fn shown(alloc: Global, line: ScriptLine) -> Result<Vec<u8>, Fail> {
    let mut out = Vec::new(alloc);
    match line {
        ScriptLine::Nothing => out.extend_from_slice(b"nothing")?,
        ScriptLine::Work => out.extend_from_slice(b"work")?,
        ScriptLine::Bad => out.extend_from_slice(b"bad")?,
        ScriptLine::Request {
            method,
            target,
            body,
        } => {
            out.extend_from_slice(method)?;
            out.push(b'|')?;
            out.extend_from_slice(target)?;
            out.push(b'|')?;
            out.extend_from_slice(body)?;
        }
    }
    Ok(out)
}

#[test]
fn script_lines(rt: HostRuntime) -> Result<(), Fail> {
    let cases = [
        ("", "nothing"),
        ("# WORK", "nothing"),
        ("WORK", "work"),
        ("WORK ", "bad"),
        ("GET", "bad"),
        (" GET /", "bad"),
        ("GET  /", "bad"),
        ("GET /v1/metric", "GET|/v1/metric|"),
        ("GET /v1/metric ", "GET|/v1/metric|"),
        (
            "POST /v1/metric {\"name\": \"a b\"}",
            "POST|/v1/metric|{\"name\": \"a b\"}",
        ),
    ];
    for (line, told) in cases {
        let found = shown(rt.alloc(), read_line(line.as_bytes()))?;
        assert_eq!(rt; found.as_slice(), told.as_bytes(), "{line}");
    }
    Ok(())
}

#[test]
fn without_memory(rt: HostRuntime) -> Result<(), Fail> {
    assert_eq!(rt;
        continue_response(),
        b"HTTP/1.1 100 Continue\r\n\r\n".as_slice()
    );
    assert_eq!(rt;
        no_memory_line(),
        b"500 {\"error\":\"memory\"}\n".as_slice()
    );
    let answer = Handled::no_memory(rt.alloc());
    for (is_head, close) in [(false, false), (false, true), (true, false), (true, true)] {
        let found = response_of(rt.alloc(), &answer, is_head, close)?;
        assert_eq!(rt; found.as_slice(), no_memory_response(is_head, close));
    }
    Ok(())
}
