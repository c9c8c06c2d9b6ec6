// How many different values there are.
ghost use Rattle.std.specs.Prelude.{◌≡◌, IfOk};
ghost use Rattle.series_model.specs.Bucket.{distinct_count};

use gno_num::Memory;
use std::alloc::Global;

/// How many different values there are, in time n log n and with one allocation.
pub fn distinct_count(alloc: Global, values: &[i64]) -> Result<u64, Memory>
    ensures { IfOk result (λ count. count ≡ distinct_count values.now) }
{
    let mut different = Vec::from_slice(alloc, values)?;
    different.sort_unstable();
    different.dedup();
    Ok(different.len() as u64)
}
