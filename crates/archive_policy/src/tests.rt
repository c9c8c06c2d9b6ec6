// Worked examples of policies. Times are in seconds.
use crate::{Definition, Kind, Name, NameFault, Policy, PolicyFault, Wanted};
use gno_num::Span;
use std::alloc::Global;
use std::test::Fail;

const NANOS: u64 = 1_000_000_000;

/// Granularity, points and timespan, 0 where one isn't given.
type Asked = (u32, u32, u32);

fn span(seconds: u32) -> Result<Span, Fail> {
    Ok(Span::of_nanos(u64::from(seconds) * NANOS).ok_or("span")?)
}

fn span_given(seconds: u32) -> Result<Option<Span>, Fail> {
    if seconds == 0 {
        return Ok(None);
    }
    Ok(Some(span(seconds)?))
}

fn wanted(alloc: Global, asked: &[Asked]) -> Result<Vec<Wanted>, Fail> {
    let mut made = Vec::new(alloc);
    for (granularity, points, timespan) in asked {
        let points = *points;
        made.push(Wanted {
            granularity: span_given(*granularity)?,
            points: if points == 0 {
                None
            } else {
                Some(u64::from(points))
            },
            timespan: span_given(*timespan)?,
        })?;
    }
    Ok(made)
}

fn policy(
    alloc: Global,
    back_window: u64,
    asked: &[Asked],
    kinds: &[Kind],
) -> Result<Result<Policy, PolicyFault>, Fail> {
    let name = Name::of(alloc, b"p")?;
    let wanted = wanted(alloc, asked)?;
    Ok(Policy::make(alloc, name, back_window, wanted.as_slice(), kinds))
}

#[test]
fn faults_of_policies(rt: HostRuntime) -> Result<(), Fail> {
    let one = [(60, 10, 0)];
    let sixty_and_ninety = PolicyFault::NotDividing {
        fine: span(60)?,
        coarse: span(90)?,
    };
    let seven_before_five = PolicyFault::NotDividing {
        fine: span(5)?,
        coarse: span(12)?,
    };
    let cases: [(u64, &[Asked], &[Kind], PolicyFault); 14] = [
        (1001, &[], &[], PolicyFault::BackWindow),
        (0, &[], &[], PolicyFault::NoDefinition),
        (0, &[(0, 0, 0); 9], &[], PolicyFault::TooMany),
        (0, &[(60, 10, 0), (0, 10, 0)], &[], PolicyFault::TooFew),
        (0, &[(60, 0, 59)], &[], PolicyFault::ZeroPoints),
        (0, &[(0, 7, 60)], &[], PolicyFault::SpanMismatch),
        (0, &[(60, 10, 601)], &[], PolicyFault::SpanMismatch),
        (0, &[(2_592_001, 1, 0)], &[], PolicyFault::GranularityRange),
        (0, &[(1, 1_000_001, 0)], &[], PolicyFault::PointsRange),
        (0, &[(2_592_000, 3_473, 0)], &[], PolicyFault::PointsRange),
        (
            0,
            &[(60, 10, 0), (60, 20, 0)],
            &[],
            PolicyFault::SameGranularity,
        ),
        (0, &[(90, 10, 0), (60, 10, 0)], &[], sixty_and_ninety),
        (
            0,
            &[(7, 1, 0), (12, 1, 0), (5, 1, 0)],
            &[],
            seven_before_five,
        ),
        (0, &one, &[], PolicyFault::NoAggregation),
    ];
    for (back_window, asked, kinds, fault) in cases {
        let made = policy(rt.alloc(), back_window, asked, kinds)?;
        assert_eq!(rt; made.err(), Some(fault));
    }
    Ok(())
}

#[test]
fn definitions_of_policies(rt: HostRuntime) -> Result<(), Fail> {
    let cases: [(&[Asked], &[(u32, u32)], u32); 5] = [
        (
            &[(60, 10, 0), (3600, 24, 0), (1, 5, 0)],
            &[(1, 5), (60, 10), (3600, 24)],
            3600,
        ),
        (&[(1, 0, 3_600)], &[(1, 3_600)], 1),
        (&[(0, 48, 86_400)], &[(1_800, 48)], 1_800),
        // the two before as one policy
        (
            &[(1, 0, 3_600), (0, 48, 86_400)],
            &[(1, 3_600), (1_800, 48)],
            1_800,
        ),
        // a part of a granularity has no point
        (&[(60, 0, 179)], &[(60, 2)], 60),
    ];
    for (asked, wanted, largest) in cases {
        let made = policy(rt.alloc(), 1, asked, &[Kind::Mean])??;
        let mut definitions = Vec::new(rt.alloc());
        for (granularity, points) in wanted {
            definitions.push(Definition {
                granularity: span(*granularity)?,
                points: *points,
            })?;
        }
        assert_eq!(rt; made.definitions(), definitions.as_slice());
        assert_eq!(rt; made.largest(), span(largest)?);
    }
    Ok(())
}

#[test]
fn parts_of_policies(rt: HostRuntime) -> Result<(), Fail> {
    let given = [Kind::RateLast, Kind::Count, Kind::Mean, Kind::Count];
    let made = policy(rt.alloc(), 1000, &[(60, 10, 0)], &given)??;
    let again = made.copy()?;
    assert!(rt; made.equals(&again));
    assert!(rt; !made.equals(&policy(rt.alloc(), 1000, &[(60, 10, 0)], &[Kind::Mean])??));
    for policy in [&made, &again] {
        assert_eq!(rt; policy.name().bytes(), b"p".as_slice());
        assert_eq!(rt; policy.back_window(), 1000);
        assert_eq!(rt; policy.definitions().len(), 1);
        assert_eq!(rt;
            policy.kinds(),
            [Kind::Mean, Kind::Count, Kind::RateLast].as_slice()
        );
    }
    Ok(())
}

#[test]
fn names(rt: HostRuntime) -> Result<(), Fail> {
    let cases: [(&[u8], bool); 8] = [
        (b"disk.io *~", true),
        (&[b'a'; 255], true),
        (&[b'a'; 256], false),
        (b"", false),
        (b"a/b", false),
        (b"a\x7F", false),
        (b"\x1F", false),
        (b"\xC3\xA4", false),
    ];
    for (text, is_name) in cases {
        let name = Name::of(rt.alloc(), text);
        if is_name {
            assert_eq!(rt; name?.copy()?.bytes(), text);
        } else {
            assert_eq!(rt; name.err(), Some(NameFault::BadName));
        }
    }
    Ok(())
}

#[test]
fn names_of_kinds(rt: HostRuntime) -> Result<(), Fail> {
    let cases = [
        ("mean", Kind::Mean),
        ("min", Kind::Min),
        ("max", Kind::Max),
        ("sum", Kind::Sum),
        ("count", Kind::Count),
        ("first", Kind::First),
        ("last", Kind::Last),
        ("nunique", Kind::Nunique),
        ("rate:mean", Kind::RateMean),
        ("rate:min", Kind::RateMin),
        ("rate:max", Kind::RateMax),
        ("rate:sum", Kind::RateSum),
        ("rate:count", Kind::RateCount),
        ("rate:first", Kind::RateFirst),
        ("rate:last", Kind::RateLast),
        ("rate:nunique", Kind::RateNunique),
    ];
    for (place, (name, kind)) in cases.iter().enumerate() {
        assert_eq!(rt; Kind::of_name(name.as_bytes()), Some(*kind));
        assert_eq!(rt; kind.name(), *name);
        assert_eq!(rt; usize::from(kind.index()), place);
        assert_eq!(rt; Kind::of_index(kind.index()), Some(*kind));
        assert_eq!(rt; kind.is_rate(), name.starts_with("rate:"));
    }
    assert_eq!(rt; Kind::of_name(b"rate:"), None);
    assert_eq!(rt; Kind::of_name(b"Mean"), None);
    assert_eq!(rt; Kind::of_index(16), None);
    Ok(())
}
