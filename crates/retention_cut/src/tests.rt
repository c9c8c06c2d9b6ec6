// Worked rows, in seconds.
use crate::{oldest_key, oldest_point};
use archive_policy::Definition;
use gno_num::{Span, Stamp};
use std::test::Fail;

const NANOS: u64 = 1_000_000_000;

#[test]
fn splits_that_hold_oldest_points(rt: HostRuntime) -> Result<(), Fail> {
    let definition = Definition {
        granularity: Span::of_nanos(60 * NANOS).ok_or("span")?,
        points: 10,
    };
    // the greatest timestamp, the oldest point and its key
    let cases: [(u32, u64, u64); 4] = [
        (216_000, 215_460, 0),
        (216_540, 216_000, 216_000),
        (216_599, 216_000, 216_000),
        (539, 0, 0),
    ];
    for (last, point, key) in cases {
        let last = Stamp::of_nanos(u64::from(last) * NANOS).ok_or("stamp")?;
        assert_eq!(rt;
            oldest_point(last, &definition).nanos() / NANOS,
            point,
            "{last:?}"
        );
        assert_eq!(rt;
            oldest_key(last, &definition).nanos() / NANOS,
            key,
            "{last:?}"
        );
    }
    Ok(())
}
