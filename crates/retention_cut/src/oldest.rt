// The oldest point and the oldest split.
ghost use Rattle.std.specs.Prelude.{◌≡◌, ◌≤◌, ◌*◌, ◌%◌, ◌^◌};
ghost use Rattle.series_model.specs.Answer.{oldest_point_of};
ghost use Rattle.series_model.specs.Stored.{oldest_key_of};

use archive_policy::Definition;
use gno_num::{Stamp, floor, split_key};

/// The start of the oldest bucket that is kept, by the greatest accepted timestamp.
pub fn oldest_point(last: Stamp, definition: &Definition) -> Stamp
    requires some { 1 ≤ definition.now.points }
    requires longest { definition.now.granularity ≤ 2_592_000 * 10 ^ 9 }
    ensures value { result ≡ oldest_point_of last definition.now }
    ensures multiple { result % definition.now.granularity ≡ 0 }
    ensures early { result ≤ last }
{
    let granularity = definition.granularity;
    let back = u64::from(definition.points - 1).saturating_mul(granularity.nanos());
    let newest = floor(last, granularity);
    Stamp::of_nanos(newest.nanos().saturating_sub(back)).unwrap()
}

/// The key of the split that holds the oldest point: no split with an earlier key is stored.
pub fn oldest_key(last: Stamp, definition: &Definition) -> Stamp
    requires some { 1 ≤ definition.now.points }
    requires longest { definition.now.granularity ≤ 2_592_000 * 10 ^ 9 }
    ensures { result ≡ oldest_key_of last definition.now }
{
    split_key(oldest_point(last, definition), definition.granularity)
}
