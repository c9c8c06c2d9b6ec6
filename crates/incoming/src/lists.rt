// Where the marks of each metric stand, one list a metric.
ghost use Rattle.std.specs.Prelude.{◌+◌, ◌≡◌, ℕ, ◌<◌, ◌≤◌, ◌==◌, ◌++◌, ◌∷◌, [], if◌then◌else◌, length, OnOk, true, false, vec_len, vec_capacity};
ghost use Rattle.std.specs.List.Sorted.{IsPartitionPoint, IsPartitionedBy};
ghost use Rattle.incoming.specs.Lists.{HasRoomAt, IsBetween, is_upto, list_of};

use crate::Mark;
use gno_num::Memory;
use std::alloc::Global;
use std::collections::BTreeMap;

/// By metric, where its marks stand.
pub type Lists = BTreeMap<u128, Vec<usize>>;

/// The list of a metric, empty where it has none.
pub fn list_of(lists: &Lists, metric: u128) -> &[usize]
    ensures { result.now ≡ list_of lists.now metric }
{
    match lists.get(&metric) {
        Some(list) => list.as_slice(),
        None => &[],
    }
}

/// Takes the memory for one item more in the list of a metric.
pub fn reserve_at(lists: &mut Lists, alloc: Global, metric: u128) -> Result<(), Memory>
    ensures room { OnOk result (HasRoomAt lists.new metric) }
    ensures same { (m : ℕ) → list_of lists.new m ≡ list_of lists.old m }
{
    if let Some(list) = lists.get_mut(&metric) {
        return reserve_one(list);
    }
    let mut list = Vec::new(alloc);
    reserve_one(&mut list)?;
    lists.insert(metric, list)?;
    Ok(())
}

fn reserve_one(list: &mut Vec<usize>) -> Result<(), Memory>
    ensures room { OnOk result (vec_len list.new < vec_capacity list.new) }
    ensures same { list.new.items ≡ list.old.items }
{
    list.reserve(1)?;
    Ok(())
}

/// Puts an item to the end of the list of a metric, which has room for it.
pub fn push_at(lists: &mut Lists, metric: u128, at: usize)
    requires { HasRoomAt lists.old metric }
    ensures { (m : ℕ) → list_of lists.new m ≡ (if metric == m then list_of lists.old m ++ at ∷ [] else list_of lists.old m) }
{
    if let Some(list) = lists.get_mut(&metric) {
        list.push_reserved(at);
    }
}

fn is_upto(marks: &[Mark], above: u64, at: usize) -> bool
    ensures { result ≡ is_upto marks.now above at }
{
    match marks.get(at) {
        Some(mark) => mark.number <= above,
        None => true,
    }
}

/// One half of a stretch, in which the last mark with at most this number stands.
fn narrowed(
    marks: &[Mark],
    list: &[usize],
    above: u64,
    from: usize,
    middle: usize,
    upto: usize,
) -> (usize, usize)
    requires parted { IsPartitionedBy (is_upto marks.now above) list.now }
    requires between { IsBetween marks.now above list.now from upto }
    requires inside { (from ≤ middle) × (middle < upto) × (upto ≤ length list.now) }
    ensures between { IsBetween marks.now above list.now result.0 result.1 }
    ensures inside { (result.0 ≤ result.1) × (result.1 ≤ length list.now) }
    ensures smaller { result.1 + from < upto + result.0 }
{
    let passed = is_upto(marks, above, list[middle]);
    if passed {
        return (middle + 1, upto);
    }
    (from, middle)
}

/// How many marks of a list have at most this number. Those stand first.
pub fn reach(marks: &[Mark], list: &[usize], above: u64) -> usize
    requires { IsPartitionedBy (is_upto marks.now above) list.now }
    ensures bound { result ≤ length list.now }
    ensures point { IsPartitionPoint (λ at. is_upto marks.now above at ≡ true) (λ at. is_upto marks.now above at ≡ false) list.now result }
{
    let mut from = 0;
    let mut upto = list.len();
    'halves: while from < upto {
        let middle = from + (upto - from) / 2;
        let next = narrowed(marks, list, above, from, middle, upto);
        from = next.0;
        upto = next.1;
    }
    from
}
