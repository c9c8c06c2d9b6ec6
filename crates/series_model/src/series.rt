// The series of accepted measures.
ghost use Rattle.std.specs.Prelude.{◌≡◌, IfOk, OnOk};
ghost use Rattle.std.specs.Ordering.{nat_cmp};
ghost use Rattle.std.specs.BTreeMap.{insert_entry};
ghost use Rattle.series_model.specs.Series.{IsSeries, series_of_measures};

use crate::Measure;
use gno_num::Memory;
use std::alloc::Global;
use std::collections::BTreeMap;

/// The series: each timestamp once, in order, with the value of its last measure.
pub fn series_of(alloc: Global, accepted: &[Measure]) -> Result<Vec<Measure>, Memory>
    ensures value { IfOk result (λ series. series.items ≡ series_of_measures accepted.now) }
    ensures exact { IfOk result (λ series. IsSeries accepted.now series.items) }
{
    let mut by_time = BTreeMap::new(alloc);
    for m in accepted {
        put(&mut by_time, *m)?;
    }
    Ok(by_time.into_values().collect(alloc)?)
}

/// Puts a measure in its place by time, instead of one of its time.
fn put(by_time: &mut BTreeMap<u64, Measure>, m: Measure) -> Result<(), Memory>
    ensures { OnOk result (by_time.new.entries ≡ insert_entry nat_cmp by_time.old.entries m.at m) }
{
    by_time.insert(m.at.nanos(), m)?;
    Ok(())
}
