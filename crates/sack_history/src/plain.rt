// What a history amounts to, by a plain slow program.
ghost use Rattle.std.specs.Prelude.{◌≡◌, ◌==◌, ℕ, ◌++◌, ◌∷◌, nat_lt, not, map, take, Option, IfOk, OnOk, is_some, option_map};
ghost use Rattle.std.specs.List.{filter};
ghost use Rattle.sack_history.specs.Entries.{is_found, kept, what_counts};
ghost use Rattle.sack_history.specs.Lives.{Life, Posted, ids_after, is_waiting, last_after, last_post, life_after, life_of, live_ids, subject_of, pending_of, posted_by};
ghost use Rattle.sack_history.specs.Plain.{first_metric, numbers_in};
ghost use Rattle.sack_history.specs.Turns.{longest_waiting, turn_end};

use crate::{Counted, Entry};
use gno_num::Memory;
use series_model::MetricId;
use std::alloc::Global;

const POSTS_PER_TURN: usize = 64;

/// What counts of a history, in order.
pub fn kept(alloc: Global, entries: &[Entry]) -> Result<Vec<Counted>, Memory>
    ensures { IfOk result (λ counts. counts.items ≡ kept entries.now) }
{
    let mut counts = Vec::new(alloc);
    for (place, entry) in entries.iter().enumerate() {
        let found = is_found(&entries[place + 1..]);
        push_what_counts(&mut counts, found, entry)?;
    }
    Ok(counts)
}

/// Whether the next reopening found what was tried before it.
fn is_found(entries: &[Entry]) -> bool
    ensures { result ≡ is_found entries.now }
{
    for entry in entries {
        if let Entry::Reopened { kept } = entry {
            return *kept;
        }
    }
    false
}

/// Adds what counts of an entry, where the next reopening found what was tried or didn't.
fn push_what_counts(counts: &mut Vec<Counted>, found: bool, entry: &Entry) -> Result<(), Memory>
    ensures { OnOk result (counts.new.items ≡ counts.old.items ++ what_counts found entry.now) }
{
    match entry {
        Entry::Counted(c) => counts.push(c.copy()?)?,
        Entry::Fault { tried: Some(c), .. } => {
            if found {
                counts.push(c.copy()?)?;
            }
        }
        Entry::Fault { tried: None, .. }
        | Entry::Claim { .. }
        | Entry::Release { .. }
        | Entry::Look { .. }
        | Entry::Reopened { .. } => (),
    }
    Ok(())
}

/// The metric that an entry names.
fn subject_of(c: &Counted) -> MetricId
    ensures { result ≡ subject_of c.now }
{
    match c {
        Counted::Create { metric, .. }
        | Counted::Post { metric, .. }
        | Counted::Done { metric, .. }
        | Counted::Drop { metric } => *metric,
    }
}

/// The number of the last post of any metric, 0 where there is none.
pub fn last_post(counts: &[Counted]) -> u64
    ensures { result ≡ last_post counts.now }
{
    let mut last = 0;
    for c in counts {
        last = last_after(last, c);
    }
    last
}

/// The number of the last post after an entry.
fn last_after(last: u64, c: &Counted) -> u64
    ensures { result ≡ last_after last c.now }
{
    match c {
        Counted::Post { number, .. } => *number,
        Counted::Create { .. } | Counted::Done { .. } | Counted::Drop { .. } => last,
    }
}

/// The done number of a metric, if it is live.
pub fn done_number(counts: &[Counted], metric: MetricId) -> Option<u64>
    ensures { result ≡ option_map (λ life. life.done) (life_of metric counts.now) }
{
    let mut last = 0;
    let mut done = None;
    for c in counts {
        done = done_after(metric, last, done, c);
        last = last_after(last, c);
    }
    done
}

/// The done number of a metric after an entry, where `last` is the number of the last post of any metric.
fn done_after(metric: MetricId, last: u64, done: Option<u64>, c: &Counted) -> Option<u64>
    ensures { (life : Option Life) → done ≡ option_map (λ l. l.done) life
        → result ≡ option_map (λ l. l.done) (life_after metric last life c.now) }
{
    if subject_of(c).0 != metric.0 {
        return done;
    }
    match c {
        Counted::Create { .. } => Some(last),
        Counted::Post { .. } => done,
        Counted::Done { upto, .. } => match done {
            Some(_) => Some(*upto),
            None => None,
        },
        Counted::Drop { .. } => None,
    }
}

/// The numbers of a metric's posts since it was created that wait to be processed.
pub fn pending_numbers(
    alloc: Global,
    counts: &[Counted],
    metric: MetricId,
) -> Result<Vec<u64>, Memory>
    ensures { IfOk result (λ numbers. numbers.items ≡ map (λ p. p.number) (pending_of metric counts.now)) }
{
    match done_number(counts, metric) {
        Some(done) => {
            let posts = post_numbers(alloc, counts, metric)?;
            numbers_above(alloc, &posts, done)
        }
        None => Ok(Vec::new(alloc)),
    }
}

/// The numbers of a metric's posts since it was created, none where it isn't live.
fn post_numbers(alloc: Global, counts: &[Counted], metric: MetricId) -> Result<Vec<u64>, Memory>
    ensures { IfOk result (λ numbers. numbers.items ≡ numbers_in (life_of metric counts.now)) }
{
    let mut numbers = Vec::new(alloc);
    let mut live = false;
    for c in counts {
        live = put_number(&mut numbers, live, metric, c)?;
    }
    Ok(numbers)
}

/// The numbers of a metric's posts, and whether it is live, after an entry.
fn put_number(
    numbers: &mut Vec<u64>,
    live: bool,
    metric: MetricId,
    c: &Counted,
) -> Result<bool, Memory>
    ensures live { (life : Option Life) (last : ℕ) → live ≡ is_some life
        → IfOk result (λ now. now ≡ is_some (life_after metric last life c.now)) }
    ensures numbers { (life : Option Life) (last : ℕ) → live ≡ is_some life → numbers.old.items ≡ numbers_in life
        → OnOk result (numbers.new.items ≡ numbers_in (life_after metric last life c.now)) }
{
    if subject_of(c).0 != metric.0 {
        return Ok(live);
    }
    match c {
        Counted::Create { .. } => {
            numbers.clear();
            Ok(true)
        }
        Counted::Post { number, .. } => {
            if live {
                numbers.push(*number)?;
            }
            Ok(live)
        }
        Counted::Done { .. } => Ok(live),
        Counted::Drop { .. } => {
            numbers.clear();
            Ok(false)
        }
    }
}

/// The numbers above one.
fn numbers_above(alloc: Global, numbers: &[u64], done: u64) -> Result<Vec<u64>, Memory>
    ensures { IfOk result (λ above. above.items ≡ filter (λ n. nat_lt done n) numbers.now) }
{
    let mut above = Vec::with_capacity(alloc, numbers.len())?;
    for number in numbers {
        if done < *number {
            above.push(*number)?;
        }
    }
    Ok(above)
}

/// The number of the last post of a metric's next turn, its done number where nothing waits.
pub fn turn_end(alloc: Global, counts: &[Counted], metric: MetricId) -> Result<u64, Memory>
    ensures { IfOk result (λ upto. upto ≡ turn_end metric counts.now) }
{
    let numbers = pending_numbers(alloc, counts, metric)?;
    let mut upto = done_number(counts, metric).unwrap_or(0);
    for number in first_of(&numbers) {
        upto = *number;
    }
    Ok(upto)
}

/// The metric whose post has waited longest, if any post waits.
pub fn longest_waiting(counts: &[Counted]) -> Option<MetricId>
    ensures { result ≡ longest_waiting counts.now }
{
    for c in counts {
        let found = waiting_metric(counts, c);
        if found.is_some() {
            return found;
        }
    }
    None
}

/// The metric of the post that an entry is, if it is one that waits.
fn waiting_metric(counts: &[Counted], c: &Counted) -> Option<MetricId>
    ensures { result ≡ first_metric (filter (is_waiting counts.now) (posted_by c.now)) }
{
    match c {
        Counted::Post { number, metric, .. } => {
            if waits(counts, *number, *metric) {
                Some(*metric)
            } else {
                None
            }
        }
        Counted::Create { .. } | Counted::Done { .. } | Counted::Drop { .. } => None,
    }
}

/// Whether a post is above the done number of its metric, which is live.
fn waits(counts: &[Counted], number: u64, metric: MetricId) -> bool
    ensures { (post : Posted) → post.number ≡ number → post.metric ≡ metric → result ≡ is_waiting counts.now post }
{
    match done_number(counts, metric) {
        Some(done) => done < number,
        None => false,
    }
}

/// The live metrics, by rising identifier.
pub fn live_ids(alloc: Global, counts: &[Counted]) -> Result<Vec<MetricId>, Memory>
    ensures { IfOk result (λ ids. ids.items ≡ live_ids counts.now) }
{
    let mut ids = Vec::new(alloc);
    for c in counts {
        ids = ids_after(alloc, ids, c)?;
    }
    Ok(ids)
}

/// The live metrics after an entry.
fn ids_after(alloc: Global, ids: Vec<MetricId>, c: &Counted) -> Result<Vec<MetricId>, Memory>
    ensures { IfOk result (λ after. after.items ≡ ids_after ids.items c.now) }
{
    match c {
        Counted::Create { metric, .. } => with_id(alloc, &ids, *metric),
        Counted::Drop { metric } => without_id(alloc, &ids, *metric),
        Counted::Post { .. } | Counted::Done { .. } => Ok(ids),
    }
}

/// The identifiers with one put in its place.
fn with_id(alloc: Global, ids: &[MetricId], metric: MetricId) -> Result<Vec<MetricId>, Memory>
    ensures { IfOk result (λ after. after.items
        ≡ filter (λ id. nat_lt id.0 metric.0) ids.now ++ (metric ∷ filter (λ id. nat_lt metric.0 id.0) ids.now)) }
{
    let mut after = Vec::with_capacity(alloc, ids.len().saturating_add(1))?;
    push_below(&mut after, ids, metric)?;
    after.push(metric)?;
    push_above(&mut after, ids, metric)?;
    Ok(after)
}

/// Adds the identifiers below one.
fn push_below(after: &mut Vec<MetricId>, ids: &[MetricId], metric: MetricId) -> Result<(), Memory>
    ensures { OnOk result (after.new.items ≡ after.old.items ++ filter (λ id. nat_lt id.0 metric.0) ids.now) }
{
    for id in ids {
        if id.0 < metric.0 {
            after.push(*id)?;
        }
    }
    Ok(())
}

/// Adds the identifiers above one.
fn push_above(after: &mut Vec<MetricId>, ids: &[MetricId], metric: MetricId) -> Result<(), Memory>
    ensures { OnOk result (after.new.items ≡ after.old.items ++ filter (λ id. nat_lt metric.0 id.0) ids.now) }
{
    for id in ids {
        if metric.0 < id.0 {
            after.push(*id)?;
        }
    }
    Ok(())
}

/// The identifiers without one.
fn without_id(alloc: Global, ids: &[MetricId], metric: MetricId) -> Result<Vec<MetricId>, Memory>
    ensures { IfOk result (λ after. after.items ≡ filter (λ id. not (id.0 == metric.0)) ids.now) }
{
    let mut after = Vec::with_capacity(alloc, ids.len())?;
    for id in ids {
        if id.0 != metric.0 {
            after.push(*id)?;
        }
    }
    Ok(after)
}

/// The first of these numbers, as many as a turn takes, or all where there are fewer.
fn first_of(numbers: &[u64]) -> &[u64]
    ensures { result.now ≡ take 64 numbers.now }
{
    if numbers.len() <= POSTS_PER_TURN {
        return numbers;
    }
    &numbers[..POSTS_PER_TURN]
}
