// Which fault a policy that is asked for has.
ghost use Rattle.std.specs.Prelude.{◌≡◌, ◌==◌, false, length, map};
ghost use Rattle.std.specs.List.{list_any, filter};
ghost use Rattle.archive_policy.specs.Asked.{granularity_of, has_same, largest, leaves_rest, least, lesser, has_odd_granularity};
ghost use Rattle.archive_policy.specs.Faults.{fault_of_counts, fault_of_each, fault_of_granularities, fault_of_kinds, first_fault};

use crate::wanted::{
    granularity_of, some_has_many_points, some_has_mismatch, some_has_no_points,
    some_has_odd_granularity, some_has_too_few,
};
use crate::{Kind, PolicyFault, Wanted};
use gno_num::Span;

const LARGEST_BACK_WINDOW: u64 = 1_000;

const MOST_DEFINITIONS: usize = 8;

/// The first fault of a policy that is asked for, where there is one.
#[tactic(auto, unfolding(crate::specs::Faults::first_fault))]
pub fn first_fault(back_window: u64, wanted: &[Wanted], kinds: &[Kind]) -> Option<PolicyFault>
    ensures { result ≡ first_fault back_window wanted.now kinds.now }
{
    let of_kinds = fault_of_kinds(kinds);
    if let Some(fault) = fault_of_counts(back_window, wanted.len()) {
        return Some(fault);
    }
    if let Some(fault) = fault_of_each(wanted) {
        return Some(fault);
    }
    if let Some(fault) = fault_of_granularities(wanted) {
        return Some(fault);
    }
    of_kinds
}

/// What is wrong with the back window and the number of definitions.
fn fault_of_counts(back_window: u64, count: usize) -> Option<PolicyFault>
    ensures { result ≡ fault_of_counts back_window count }
{
    if back_window > LARGEST_BACK_WINDOW {
        Some(PolicyFault::BackWindow)
    } else if count == 0 {
        Some(PolicyFault::NoDefinition)
    } else if count > MOST_DEFINITIONS {
        Some(PolicyFault::TooMany)
    } else {
        None
    }
}

/// What is wrong with a definition by itself, each fault over the whole list.
fn fault_of_each(wanted: &[Wanted]) -> Option<PolicyFault>
    ensures { result ≡ fault_of_each wanted.now }
{
    if some_has_too_few(wanted) {
        Some(PolicyFault::TooFew)
    } else if some_has_no_points(wanted) {
        Some(PolicyFault::ZeroPoints)
    } else if some_has_mismatch(wanted) {
        Some(PolicyFault::SpanMismatch)
    } else if some_has_odd_granularity(wanted) {
        Some(PolicyFault::GranularityRange)
    } else if some_has_many_points(wanted) {
        Some(PolicyFault::PointsRange)
    } else {
        None
    }
}

/// What is wrong with the granularities among each other, where each is in its range.
fn fault_of_granularities(wanted: &[Wanted]) -> Option<PolicyFault>
    requires { list_any has_odd_granularity wanted.now ≡ false }
    ensures { result ≡ fault_of_granularities (map granularity_of wanted.now) }
{
    if has_same(wanted) {
        return Some(PolicyFault::SameGranularity);
    }
    let coarse = largest(wanted);
    let fine = not_dividing(wanted, coarse)?;
    Some(PolicyFault::NotDividing {
        fine: Span::of_nanos(fine).unwrap(),
        coarse: Span::of_nanos(coarse).unwrap(),
    })
}

/// Whether a granularity stands twice.
fn has_same(wanted: &[Wanted]) -> bool
    ensures { result ≡ has_same (map granularity_of wanted.now) }
{
    match wanted {
        [] => false,
        [first, others @ ..] => stands_in(granularity_of(first), others) || has_same(others),
    }
}

/// Whether a definition has this granularity.
fn stands_in(granularity: u64, wanted: &[Wanted]) -> bool
    ensures { result ≡ list_any (λ w. granularity_of w == granularity) wanted.now }
{
    wanted.iter().any(|w| granularity_of(w) == granularity)
}

/// The largest granularity.
fn largest(wanted: &[Wanted]) -> u64
    ensures { result ≡ largest (map granularity_of wanted.now) }
{
    let mut coarse = 0;
    for w in wanted {
        coarse = granularity_of(w).max(coarse);
    }
    coarse
}

/// The least granularity that doesn't divide this one, where there is one.
fn not_dividing(wanted: &[Wanted], coarse: u64) -> Option<u64>
    ensures { result ≡ least (filter (leaves_rest coarse) (map granularity_of wanted.now)) }
{
    let mut fine = None;
    for w in wanted {
        let granularity = granularity_of(w);
        if leaves_rest(coarse, granularity) {
            fine = Some(lesser(granularity, fine));
        }
    }
    fine
}

/// Whether the granularity doesn't divide the coarse one.
fn leaves_rest(coarse: u64, fine: u64) -> bool
    ensures { result ≡ leaves_rest coarse fine }
{
    fine == 0 && coarse != 0 || fine != 0 && coarse % fine != 0
}

/// The lesser of a granularity and another one, where there is one.
fn lesser(granularity: u64, other: Option<u64>) -> u64
    ensures { result ≡ lesser granularity other }
{
    match other {
        None => granularity,
        Some(other) => granularity.min(other),
    }
}

/// What is wrong with the kinds.
fn fault_of_kinds(kinds: &[Kind]) -> Option<PolicyFault>
    ensures { result ≡ fault_of_kinds kinds.now }
{
    if kinds.is_empty() {
        Some(PolicyFault::NoAggregation)
    } else {
        None
    }
}
