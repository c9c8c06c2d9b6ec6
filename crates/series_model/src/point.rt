// Points, and the splits that they are stored in.
ghost use Rattle.std.specs.Prelude.{◌≡◌, IfOk};

use gno_num::{Frac, List, Memory, Stamp};
use std::alloc::Global;

/// The value of the bucket that begins at this time.
#[derive(Clone, Copy, Debug, PartialEq, Eq)]
pub struct Point {
    pub at: Stamp,
    pub value: Frac,
}

/// The points of a stretch of 3,600 buckets that begins at the key.
#[derive(Debug, Drop)]
pub struct Split {
    pub key: Stamp,
    pub points: List<Point>,
}

impl Split {
    /// The split with this key and these points.
    pub fn make(key: Stamp, points: Vec<Point>) -> Split
        ensures key { result.key ≡ key }
        ensures points { result.points ≡ points.items }
    {
        Split {
            key,
            points: List::of(points),
        }
    }

    /// The points, in order.
    pub fn points(&self) -> &[Point]
        ensures { result.now ≡ self.now.points }
    {
        self.points.items()
    }

    /// An equal split.
    pub fn copy(&self, alloc: Global) -> Result<Split, Memory>
        ensures { IfOk result (λ copy. copy ≡ self.now) }
    {
        let points = Vec::from_slice(alloc, self.points())?;
        Ok(Split::make(self.key, points))
    }
}
