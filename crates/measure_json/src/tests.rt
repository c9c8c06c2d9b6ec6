use super::*;
use gno_num::{Frac, Span, Stamp};
use series_model::{Answer, Row};
use std::alloc::Global;
use std::test::Fail;

const SECOND: u64 = 1_000_000_000;

// A row of a bucket at this second and of this many seconds, with a fraction of units.
fn row(at: u64, granularity: u64, num: i128, den: u64) -> Result<Row, Fail> {
    Ok(Row {
        at: Stamp::of_nanos(at.wrapping_mul(SECOND)).ok_or("a stamp")?,
        granularity: Span::of_nanos(granularity.wrapping_mul(SECOND)).ok_or("a span")?,
        value: Frac::of(num, den).ok_or("a fraction")?,
    })
}

fn text_of(alloc: Global, answer: &Answer, exact: bool) -> Result<Vec<u8>, Fail> {
    let mut text = b"so far: ".to_vec(alloc)?;
    write_answer(answer, exact, &mut text)?;
    Ok(text)
}

#[test]
fn two_rows_rounded_and_exact(rt: HostRuntime) -> Result<(), Fail> {
    let mut answer = Answer::new(rt.alloc());
    answer.add(row(0, 300, 15_000_000, 1)?)?;
    answer.add(row(60, 60, 5_000_000, 3)?)?;

    let rounded = text_of(rt.alloc(), &answer, false)?;
    let wanted = b"so far: [[\"1970-01-01T00:00:00+00:00\",300.0,15.0],\
        [\"1970-01-01T00:01:00+00:00\",60.0,1.666667]]";
    assert_eq!(rt; rounded.as_slice(), wanted.as_slice());

    let exact = text_of(rt.alloc(), &answer, true)?;
    let wanted = b"so far: [[\"1970-01-01T00:00:00+00:00\",300.0,[15000000,1]],\
        [\"1970-01-01T00:01:00+00:00\",60.0,[5000000,3]]]";
    assert_eq!(rt; exact.as_slice(), wanted.as_slice());
    Ok(())
}

#[test]
fn no_rows_and_below_zero(rt: HostRuntime) -> Result<(), Fail> {
    let mut answer = Answer::new(rt.alloc());
    let none = text_of(rt.alloc(), &answer, true)?;
    assert_eq!(rt; none.as_slice(), b"so far: []".as_slice());

    answer.add(row(86_400, 1, -5_000_000, 2)?)?;
    let exact = text_of(rt.alloc(), &answer, true)?;
    let wanted = b"so far: [[\"1970-01-02T00:00:00+00:00\",1.0,[-5000000,2]]]";
    assert_eq!(rt; exact.as_slice(), wanted.as_slice());
    Ok(())
}

// What a body gives: how many measures with the sum of their seconds and of their units, or the
// place and the kind of its fault.
fn outcome(alloc: Global, body: &[u8]) -> Result<String, Fail> {
    match read_measures(alloc, body) {
        Ok(batch) => {
            let mut text = String::new(alloc);
            for measure in batch.measures() {
                let at = measure.at.nanos();
                let units = measure.value.units();
                text.push_str(&format!(in alloc; "{at}:{units} ")?)?;
            }
            Ok(text)
        }
        Err(BodyFault::Memory) => Err("memory")?,
        Err(BodyFault::Json { at, kind }) => Ok(format!(in alloc; "{at} {kind:?}")?),
    }
}

// Bodies, and what they give, worked by hand from the rules.
const BODIES: [(&[u8], &str); 64] = [
    // accepted
    (b"[]", ""),
    (b" \t\r\n[ \n] \t", ""),
    (
        b"[{\"timestamp\":100,\"value\":10},{\"timestamp\":110,\"value\":20}]",
        "100000000000:10000000 110000000000:20000000 ",
    ),
    (
        b"[ { \"value\" : -0.5 , \"timestamp\" : 1e-9 } ]",
        "1:-500000 ",
    ),
    (
        b"[{\"timestamp\":\"1970-01-01T00:01:00Z\",\"value\":\"2.5\"}]",
        "60000000000:2500000 ",
    ),
    (
        b"[{\"\\u0074imestamp\":1,\"v\\u0061lue\":\"\\u0031\"}]",
        "1000000000:1000000 ",
    ),
    (
        b"[{\"timestamp\":\"1970\\u002d01-02\",\"value\":1}]",
        "86400000000000:1000000 ",
    ),
    (
        b"[{\"timestamp\": 1600000000.000001, \"value\": -12.345678}]",
        "1600000000000001000:-12345678 ",
    ),
    (
        b"[{\"timestamp\":0.0000001,\"value\":0.1234567}]",
        "100:123457 ",
    ),
    // syntax
    (b"", "0 Syntax"),
    (b"  ", "2 Syntax"),
    (b"x", "0 Syntax"),
    (b"[] x", "3 Syntax"),
    (b"[", "1 Syntax"),
    (b"[,", "1 Syntax"),
    (b"[,{\"timestamp\":0,\"value\":1}]", "1 Syntax"),
    (b"[{\"timestamp\":0,\"value\":1},", "27 Syntax"),
    (b"[{\"timestamp\":0,\"value\":1},]", "27 Syntax"),
    (b"[{\"timestamp\":0,\"value\":1}{", "26 Syntax"),
    (b"[{\"timestamp\":0,\"value\":1", "25 Syntax"),
    (b"[{\"timestamp\":0,\"value\":1,}]", "26 Syntax"),
    (b"[{\"timestamp\":0,}]", "16 Syntax"),
    (b"[{\"timestamp\" 0}]", "14 Syntax"),
    (b"[{\"timestamp\":}]", "14 Syntax"),
    (b"[{\"timestamp\":01}]", "15 Syntax"),
    (b"[{\"timestamp\":1.}]", "16 Syntax"),
    (b"[{\"timestamp\":1e+}]", "17 Syntax"),
    (b"[{\"timestamp\":-}]", "15 Syntax"),
    (b"[{\"timestamp\":+1}]", "14 Syntax"),
    (b"[{timestamp:1}]", "2 Syntax"),
    (b"[{\"time", "7 Syntax"),
    (b"[{\"time\\x", "8 Syntax"),
    (b"[{\"time\\u12g4", "11 Syntax"),
    (b"[{\"time\n", "7 Syntax"),
    // bytes that are no UTF-8
    (b"[{\"\x80", "3 Syntax"),
    (b"[{\"\xc3\"", "4 Syntax"),
    (b"[{\"\xc1\x81", "3 Syntax"),
    (b"[{\"\xe0\x9f\x80", "4 Syntax"),
    (b"[{\"\xe2\x82", "5 Syntax"),
    (b"[{\"\xed\xa0\x80", "4 Syntax"),
    (b"[{\"\xf0\x8f", "4 Syntax"),
    (b"[{\"\xf4\x90", "4 Syntax"),
    (b"[{\"\xf5", "3 Syntax"),
    (
        b"[{\"\xc3\xa4\xe2\x82\xac\xf0\x9f\x98\x80\":1}]",
        "2 NotMeasure",
    ),
    // another value or key
    (b"{}", "0 NotMeasure"),
    (b"null", "0 NotMeasure"),
    (b"[1]", "1 NotMeasure"),
    (b"[[]]", "1 NotMeasure"),
    (b"[{}]", "2 NotMeasure"),
    (b"[{\"timestamp\":0}]", "15 NotMeasure"),
    (b"[{\"timestamp\":0,\"timestamp\":1}]", "16 NotMeasure"),
    (b"[{\"value\":0,\"value\":\"x\"}]", "12 NotMeasure"),
    (b"[{\"timestamp\":0,\"value\":1,\"x\":2}]", "26 NotMeasure"),
    (
        b"[{\"timestamp\":0,\"value\":1,\"value\":1}]",
        "26 NotMeasure",
    ),
    (b"[{\"Timestamp\":0}]", "2 NotMeasure"),
    (b"[{\"timestamp\":true}]", "14 NotMeasure"),
    (b"[{\"timestamp\":0,\"value\":null}]", "24 NotMeasure"),
    (b"[{\"\\ud83d\\ude00\":0}]", "2 NotMeasure"),
    (b"[{\"timestamp\\ud800\":0}]", "2 NotMeasure"),
    // times and numbers
    (
        b"[{\"timestamp\":\"1969-12-31T23:59:59Z\",\"value\":1}]",
        "14 Time(BeforeEpoch)",
    ),
    (
        b"[{\"timestamp\":9000000000,\"value\":1}]",
        "14 Time(TooLate)",
    ),
    (
        b"[{\"timestamp\":\"\\udc00\",\"value\":1}]",
        "14 Time(BadTime)",
    ),
    (
        b"[{\"timestamp\":0,\"value\":1000000000001}]",
        "24 Number(TooLarge)",
    ),
    (
        b"[{\"timestamp\":0,\"value\":\"\"}]",
        "24 Number(NotANumber)",
    ),
];

#[test]
fn bodies(rt: HostRuntime) -> Result<(), Fail> {
    for (body, wanted) in BODIES {
        assert_eq!(rt; outcome(rt.alloc(), body)?.as_str(), wanted);
    }
    Ok(())
}

// A list of so many measures, of which the last is this text.
fn list_of(alloc: Global, count: u64, last: &[u8]) -> Result<Vec<u8>, Fail> {
    let mut body = b"[".to_vec(alloc)?;
    for _ in 1..count {
        body.extend_from_slice(b"{\"timestamp\":1,\"value\":2},")?;
    }
    body.extend_from_slice(last)?;
    body.push(b']')?;
    Ok(body)
}

#[test]
fn long_lists_and_tokens(rt: HostRuntime) -> Result<(), Fail> {
    let most = list_of(rt.alloc(), 50_000, b"{\"timestamp\":1,\"value\":2}")?;
    let Ok(batch) = read_measures(rt.alloc(), &most) else {
        return Err("50,000 measures are a batch")?;
    };
    assert_eq!(rt; batch.measures().len(), 50_000);

    // Each measure takes 26 bytes with its comma.
    for (last, wanted) in [
        (b"{".as_slice(), "1300001 TooMany"),
        (b"1", "1300001 NotMeasure"),
        (b"x", "1300001 Syntax"),
    ] {
        let over = list_of(rt.alloc(), 50_001, last)?;
        assert_eq!(rt; outcome(rt.alloc(), &over)?.as_str(), wanted);
    }

    // A token of 65 digits is judged once it has ended.
    let zeros = "00000000000000000000000000000000000000000000000000000000000000000";
    for (token, wanted) in [
        (format!(in rt.alloc(); "1.{zeros}")?, "24 Number(TooLong)"),
        (format!(in rt.alloc(); "1.{zeros}.")?, "24 Number(TooLong)"),
        (format!(in rt.alloc(); "1.{zeros}e")?, "92 Syntax"),
        (
            format!(in rt.alloc(); "\"{zeros}\\n\"")?,
            "24 Number(TooLong)",
        ),
    ] {
        let body = format!(in rt.alloc(); "[{{\"timestamp\":0,\"value\":{token}")?;
        assert_eq!(rt; outcome(rt.alloc(), body.as_bytes())?.as_str(), wanted);
    }
    Ok(())
}

// What a body of several metrics gives: each identifier with its number of measures, or the place
// and the kind of its fault.
fn entries(alloc: Global, body: &[u8]) -> Result<String, Fail> {
    match read_batch(alloc, body) {
        Ok(found) => {
            let mut text = String::new(alloc);
            for (id, batch) in found.as_slice() {
                let id = id.0;
                let len = batch.measures().len();
                text.push_str(&format!(in alloc; "{id}:{len} ")?)?;
            }
            Ok(text)
        }
        Err(BodyFault::Memory) => Err("memory")?,
        Err(BodyFault::Json { at, kind }) => Ok(format!(in alloc; "{at} {kind:?}")?),
    }
}

const ENTRIES: [(&[u8], &str); 12] = [
    (b"{}", ""),
    (
        b"{\"00000000-0000-0000-0000-000000000009\":[{\"timestamp\":1,\"value\":1}],\"0000000000000000000000000000000A\":[]}",
        "9:1 10:0 ",
    ),
    (
        b" { \"urn:uuid:00000000-0000-0000-0000-000000000009\" : [] , \"{00000000-0000-0000-0000-00000000000\\u0039}\" : [] } ",
        "9:0 9:0 ",
    ),
    (b"[]", "0 NotMeasure"),
    (b"{1:[]}", "1 Syntax"),
    (b"{\"x\":[]}", "1 BadId"),
    (b"{\"x", "3 Syntax"),
    (
        b"{\"00000000-0000-0000-0000-00000000000\\ud800\":[]}",
        "1 BadId",
    ),
    (
        b"{\"00000000000000000000000000000009\":{}}",
        "36 NotMeasure",
    ),
    (
        b"{\"00000000000000000000000000000009\":[{\"timestamp\":-1}",
        "50 Time(BeforeEpoch)",
    ),
    (b"{\"00000000000000000000000000000009\":[],}", "39 Syntax"),
    (b"{\"00000000000000000000000000000009\":[]}{", "39 Syntax"),
];

#[test]
fn bodies_of_several_metrics(rt: HostRuntime) -> Result<(), Fail> {
    for (body, wanted) in ENTRIES {
        assert_eq!(rt; entries(rt.alloc(), body)?.as_str(), wanted);
    }
    Ok(())
}
