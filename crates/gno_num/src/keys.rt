// Where groups and splits begin.
ghost use Rattle.std.specs.Prelude.{◌≡◌, ◌*◌, ◌<◌, ◌≤◌, ◌^◌};
ghost use Rattle.gno_num.specs.Floor.{floor_of, split_key_of};

use crate::{Span, Stamp};

/// How many groups a split has.
pub const GROUPS_PER_SPLIT: u64 = 3600;

/// The greatest multiple of a span that isn't after the stamp, counted from the epoch.
pub fn floor(at: Stamp, span: Span) -> Stamp
    ensures { result ≡ floor_of at span }
{
    floor_by(at, span.nanos())
}

/// Where the split begins in which the stamp lies: at a multiple of 3,600 granularities.
pub fn split_key(at: Stamp, granularity: Span) -> Stamp
    requires { granularity ≤ 2_592_000 * 10 ^ 9 }
    ensures { result ≡ split_key_of at granularity }
{
    floor_by(at, GROUPS_PER_SPLIT * granularity.nanos())
}

fn floor_by(at: Stamp, step: u64) -> Stamp
    requires { 0 < step }
    ensures { result ≡ floor_of at step }
{
    Stamp::of_nanos(at.nanos() / step * step).unwrap()
}
