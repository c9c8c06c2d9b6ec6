use super::*;
use crate::tokens::TOKENS;
use gno_num::{Span, Stamp, read_value};
use std::alloc::Global;
use std::test::Fail;

const SECOND: u64 = 1_000_000_000;

fn stamp_printed(alloc: Global, nanos: u64) -> Result<String, Fail> {
    let mut out = Vec::new(alloc);
    stamp_text(Stamp::of_nanos(nanos).ok_or("a stamp")?, &mut out)?;
    Ok(String::from_utf8(out)?)
}

#[test]
fn stamps_are_printed(rt: HostRuntime) -> Result<(), Fail> {
    let rows = [
        (0, "1970-01-01T00:00:00+00:00"),
        (60 * SECOND, "1970-01-01T00:01:00+00:00"),
        (8_999_999_940 * SECOND, "2255-03-14T15:59:00+00:00"),
        (
            8_999_999_999_999_999_999,
            "2255-03-14T15:59:59.999999999+00:00",
        ),
        (951_782_400 * SECOND, "2000-02-29T00:00:00+00:00"),
        (
            1_709_202_600 * SECOND + 500_000_000,
            "2024-02-29T10:30:00.500000000+00:00",
        ),
        (
            4_107_542_400 * SECOND + 1,
            "2100-03-01T00:00:00.000000001+00:00",
        ),
        (1_735_689_599 * SECOND, "2024-12-31T23:59:59+00:00"),
    ];
    for (nanos, text) in rows {
        assert_eq!(rt; stamp_printed(rt.alloc(), nanos)?.as_str(), text);
    }
    Ok(())
}

#[test]
fn seconds_are_printed(rt: HostRuntime) -> Result<(), Fail> {
    let rows = [
        (60 * SECOND, "60.0"),
        (500_000_000, "0.5"),
        (1_000_000, "0.001"),
        (1_000_001, "0.001000001"),
        (9_000_000_000 * SECOND, "9000000000.0"),
    ];
    for (nanos, text) in rows {
        let mut out = Vec::new(rt.alloc());
        seconds_text(Span::of_nanos(nanos).ok_or("a span")?, &mut out)?;
        assert_eq!(rt; String::from_utf8(out)?.as_str(), text);
    }
    Ok(())
}

#[test]
fn spans_are_printed(rt: HostRuntime) -> Result<(), Fail> {
    let rows = [
        (60 * SECOND, "0:01:00"),
        (86_400 * SECOND, "1 day, 0:00:00"),
        (604_800 * SECOND, "7 days, 0:00:00"),
        (500_000_000, "0:00:00.500000000"),
        (1_000_000, "0:00:00.001000000"),
        (86_399 * SECOND + 1, "23:59:59.000000001"),
        (2 * 86_400 * SECOND + 36_000 * SECOND, "2 days, 10:00:00"),
        (9_000_000_000 * SECOND, "104166 days, 16:00:00"),
    ];
    for (nanos, text) in rows {
        let mut out = Vec::new(rt.alloc());
        span_text(Span::of_nanos(nanos).ok_or("a span")?, &mut out)?;
        assert_eq!(rt; String::from_utf8(out)?.as_str(), text);
    }
    Ok(())
}

fn value_answer(alloc: Global, token: &str) -> Result<String, Fail> {
    match read_value(token.as_bytes()) {
        Ok(value) => Ok(value.units().to_string(alloc)?),
        Err(fault) => Ok(format!(in alloc; "{fault:?}")?),
    }
}

fn stamp_answer(alloc: Global, token: &str) -> Result<String, Fail> {
    match read_stamp(token.as_bytes()) {
        Ok(stamp) => Ok(stamp.nanos().to_string(alloc)?),
        Err(fault) => Ok(format!(in alloc; "{fault:?}")?),
    }
}

fn span_answer(alloc: Global, token: &str) -> Result<String, Fail> {
    match read_span(token.as_bytes()) {
        Ok(span) => Ok(span.nanos().to_string(alloc)?),
        Err(fault) => Ok(format!(in alloc; "{fault:?}")?),
    }
}

#[test]
fn tokens_are_read(rt: HostRuntime) -> Result<(), Fail> {
    let mut count = 0u64;
    for line in TOKENS.lines() {
        let mut parts = line.split('|');
        let marked = parts.next().ok_or("a token")?;
        let token = marked.strip_prefix(">").ok_or("a mark")?;
        let value = parts.next().ok_or("a value")?;
        let stamp = parts.next().ok_or("a stamp")?;
        let span = parts.next().ok_or("a span")?;
        assert_eq!(rt;
            value_answer(rt.alloc(), token)?.as_str(),
            value,
            "value of {token}"
        );
        assert_eq!(rt;
            stamp_answer(rt.alloc(), token)?.as_str(),
            stamp,
            "stamp of {token}"
        );
        assert_eq!(rt;
            span_answer(rt.alloc(), token)?.as_str(),
            span,
            "span of {token}"
        );
        count = count.saturating_add(1);
    }
    assert_eq!(rt; count, 192);
    Ok(())
}
